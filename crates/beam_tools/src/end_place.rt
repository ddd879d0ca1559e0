//! Where process 1 of a call ended: the call is run again, over a node with a debugger, up to the row before its last.

use crate::call::start_of;
use crate::files::Files;
use crate::line::Call;
use crate::lines::Lines;
use crate::load::image_of;
use crate::rounds::{FIRST, MOST_PROCESSES, MOST_ROWS};
use beam_debug::debugger::Debugger;
use beam_debug::outcome::Outcome;
use beam_debug::view::View;
use beam_image::Image;
use beam_machine::event::{Event, Refused, Reply};
use std::alloc::Global;

/// How far a call has come that is run again.
#[derive(Clone, Copy)]
enum ReplayState {
    GoesOn,
    /// The last row of process 1 comes next.
    BeforeLast,
    /// The call takes another course than before, or memory was refused.
    Lost,
}

/// A call that is run again, in the same rounds.
struct Replay {
    node: Debugger,
    after: u32,
    ran: bool,
    /// The rows that are left up to the end of process 1.
    left: u32,
    state: ReplayState,
}

impl Drop for Replay {
    fn drop(self) {
        let Replay {
            node: _node,
            after: _after,
            ran: _ran,
            left: _left,
            state: _state,
        } = self;
    }
}

impl Replay {
    // How many rows an answer counts. Notes where memory was refused.
    fn count(&mut self, answer: &Result<Outcome, Refused>) -> u32 {
        match answer {
            Ok(Outcome::Node(Reply::Ran { count, .. })) => *count,
            Err(Refused::NoMemory) => {
                self.state = ReplayState::Lost;
                0
            }
            _ => 0,
        }
    }

    // Applies an event, and answers how many rows it ran.
    fn happen(&mut self, event: Event<Image>) -> u32 {
        let answer = self.node.apply_event(&event);
        self.count(&answer)
    }

    fn load<F: Files>(&mut self, alloc: Global, name: &str, files: &mut F) {
        match image_of(alloc, files, name) {
            Ok(image) => {
                self.happen(Event::Load(image));
            }
            Err(_) => self.state = ReplayState::Lost,
        }
    }

    fn start(&mut self, alloc: Global, call: &Call<'_>) {
        match start_of(alloc, call) {
            Ok(event) => {
                self.happen(event);
            }
            Err(_) => self.state = ReplayState::Lost,
        }
    }

    // The turn of a process. The last row of process 1 isn't run.
    fn turn(&mut self, pid: u32) {
        self.happen(Event::Deliver { pid });
        let kept = if pid == FIRST { 1 } else { 0 };
        let rows = self.left.saturating_sub(kept).min(MOST_ROWS);
        let count = self.happen(Event::Steps { pid, rows });
        self.after = pid;
        self.ran = true;
        self.left = self.left.saturating_sub(count);
    }

    // The process that goes on next, of those whose deadlines have come by `now`.
    fn due(&self, now: u64) -> Option<u32> {
        match (self.state, self.node.core().next_deadline()) {
            (ReplayState::GoesOn, Some((at, pid))) if at <= now => Some(pid),
            _ => None,
        }
    }

    fn wake(&mut self, now: u64) {
        for _ in 0..MOST_PROCESSES {
            let Some(pid) = self.due(now) else {
                return;
            };
            self.happen(Event::Timeout { pid });
        }
    }

    // Moves the clock to the least deadline; the processes whose deadlines have come then go on.
    fn wait(&mut self) {
        match self.node.core().next_deadline() {
            Some((now, _)) => {
                self.happen(Event::Clock { now });
                self.wake(now);
            }
            None => self.state = ReplayState::Lost,
        }
    }

    fn begin_round(&mut self) {
        if !self.ran {
            self.wait();
        }
        self.after = 0;
        self.ran = false;
    }

    // Notes whether process 1 is the next to run, and has one row left.
    fn look_ahead(&mut self) {
        let is_next = self.node.core().ready(0) == Some(FIRST);
        match self.state {
            ReplayState::GoesOn if is_next && self.left == 1 => self.state =
                ReplayState::BeforeLast,
            _ => {}
        }
    }

    // Takes the next turn, or begins the next round.
    fn advance(&mut self) {
        match self.node.core().ready(self.after) {
            Some(FIRST) => {
                self.turn(FIRST);
                self.look_ahead();
            }
            Some(pid) => self.turn(pid),
            None => self.begin_round(),
        }
    }

    // Loads the files, starts the function, and runs it.
    fn run<F: Files>(&mut self, alloc: Global, call: &Call<'_>, files: &mut F) {
        for name in &call.files {
            self.load(alloc, name, files);
        }
        self.start(alloc, call);
        for _ in 0..u64::MAX {
            match self.state {
                ReplayState::GoesOn => self.advance(),
                ReplayState::BeforeLast | ReplayState::Lost => return,
            }
        }
    }

    // Lines about the place of process 1 at the end.
    fn end_lines(&self, alloc: Global) -> Vec<u8> {
        match self.state {
            ReplayState::BeforeLast => lines_of(alloc, &self.node),
            ReplayState::GoesOn | ReplayState::Lost => Vec::new(alloc),
        }
    }
}

// Adds the text of a view; adds nothing where memory is refused for it.
fn print(view: &View, text: &mut Vec<u8>) {
    if view.print(text).is_err() {
        text.clear();
    }
}

// Of a view's text the line of the next row, and, where that row applies a function, the lines of the x registers, indented by two.
fn place_lines(alloc: Global, view: &str) -> Vec<u8> {
    let applies = view.contains("\nnext {apply");
    let mut lines = Lines::new(alloc);
    for line in view.lines() {
        if line.starts_with("at ")
            || line.starts_with("next ")
            || (applies && line.starts_with("x"))
        {
            lines.push(b"  ");
            lines.push(line.as_bytes());
            lines.push(b"\n");
        }
    }
    lines.into_text().unwrap_or(Vec::new(alloc))
}

// Of the view of process 1 the line of the next row, and, where that row applies a function, the lines of the x registers.
fn lines_of(alloc: Global, node: &Debugger) -> Vec<u8> {
    let mut text = Vec::new(alloc);
    if let Ok(view) = node.inspect(FIRST) {
        print(&view, &mut text);
    }
    match str::from_utf8(&text) {
        Ok(view) => place_lines(alloc, view),
        Err(_) => Vec::new(alloc),
    }
}

/// Lines about where process 1 stood before its last row, in a call that ran `rows` rows up to the end of process 1: the row's place and
/// its instruction, and the x registers where that applies a function. Nothing where the call takes another course this time, or memory is
/// refused.
pub fn end_place<F: Files>(alloc: Global, call: &Call<'_>, rows: u32, files: &mut F) -> Vec<u8> {
    let mut replay = Replay {
        node: Debugger::new(alloc),
        after: 0,
        ran: false,
        left: rows,
        state: ReplayState::GoesOn,
    };
    replay.run(alloc, call, files);
    replay.end_lines(alloc)
}

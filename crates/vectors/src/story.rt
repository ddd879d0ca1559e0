//! Stories: events that a node gets one after another, and its answers to them.
//!
//! A line `story TITLE` begins a story with a new node; each of its lines is `EVENT = ANSWER`. Empty lines and those that begin with `#`
//! are skipped. At the end of a story its events are run as one list by another node, and by one with a debugger, which have to give the
//! same answers.

use crate::draft::{Draft, text_of};
use crate::error::{TestRowError, unless_refused};
use crate::folder::Folder;
use crate::given::named_file;
use crate::reading::says;
use crate::script::ScriptReport;
use crate::story_answer::{answer, answers, deadline, outcomes, ready};
use crate::story_event::{Happening, read_happening};
use beam_core::node::Core;
use beam_debug::debugger::Debugger;
use beam_image::Image;
use beam_machine::debug::DebugEvent;
use beam_machine::event::Event;
use beam_tools::files::Files;
use std::alloc::Global;

/// A story, as far as it was played.
struct Story {
    alloc: Global,
    core: Core,
    /// The events so far, and their answers, each with a newline.
    events: Vec<Event<Image>>,
    answers: Draft,
    /// Whether its lines are played: it has begun, and all lines so far hold.
    holds: bool,
}

impl Drop for Story {
    fn drop(self) {
        let Story {
            alloc: _alloc,
            core: _core,
            events: _events,
            answers: _answers,
            holds: _holds,
        } = self;
    }
}

// The answers to events that another node runs as one list.
fn answers_of(alloc: Global, events: &[Event<Image>]) -> Result<String, TestRowError> {
    let mut core = Core::new(alloc);
    match core.run(events) {
        Ok(given) => answers(alloc, &given),
        Err(_) => Err(TestRowError::NoMemory),
    }
}

// The answers to events that another node with its debugger runs as one list.
fn debugged_of(alloc: Global, events: Vec<Event<Image>>) -> Result<String, TestRowError> {
    let mut debug_events = Vec::new(alloc);
    for event in events {
        if debug_events.push(DebugEvent::Node(event)).is_err() {
            return Err(TestRowError::NoMemory);
        }
    }
    let mut node = Debugger::new(alloc);
    match node.run(&debug_events) {
        Ok(given) => outcomes(alloc, &given),
        Err(_) => Err(TestRowError::NoMemory),
    }
}

// Reports where the answers to a list of events aren't those that were given one after another.
fn compare(
    number: usize,
    answers: &Draft,
    found: Result<String, TestRowError>,
    report: &mut ScriptReport,
) {
    match found {
        Ok(text) if text.as_bytes() == answers.as_slice() => {}
        Ok(text) => report.miss(number, "the same answers, run in a list", &text),
        Err(why) => report.fail(number, "the answers, run in a list", why),
    }
}

impl Story {
    // A story with no lines.
    fn new(alloc: Global, holds: bool) -> Story {
        Story {
            alloc,
            core: Core::new(alloc),
            events: Vec::new(alloc),
            answers: Draft::new(alloc),
            holds,
        }
    }

    // Applies an event, keeps the event and its answer, and gives the answer.
    fn happen(&mut self, event: Event<Image>) -> Result<String, TestRowError> {
        let found = answer(self.alloc, &self.core.apply(&event));
        self.answers.push_made(&found);
        self.answers.push(b"\n");
        match self.events.push(event) {
            Ok(()) => found,
            Err(_) => Err(TestRowError::NoMemory),
        }
    }

    // The answer to what happens in a line.
    fn found(&mut self, happening: Happening) -> Result<String, TestRowError> {
        match happening {
            Happening::Event(event) => self.happen(event),
            Happening::Ready(after) => ready(self.alloc, self.core.ready(after)),
            Happening::NextDeadline => deadline(self.alloc, self.core.next_deadline()),
            Happening::Refused(name) => { unless_refused(format!(in self.alloc; "refused {name}")) }
        }
    }

    // The answer to the event of a line.
    fn tell<F: Files>(&mut self, files: &mut F, event: &str) -> Result<String, TestRowError> {
        match read_happening(self.alloc, files, event) {
            Ok(happening) => self.found(happening),
            Err(why) => Err(why),
        }
    }

    // Plays one line: its event and the wanted answer.
    fn line<F: Files>(
        &mut self,
        files: &mut F,
        number: usize,
        text: &str,
        report: &mut ScriptReport,
    ) {
        let (event, wanted) = text.split_once(" = ").unwrap_or((text, "an answer"));
        match self.tell(files, event) {
            Ok(found) if found.as_str() == wanted => {}
            Ok(found) => {
                self.holds = false;
                report.miss(number, wanted, &found);
            }
            Err(why) => {
                self.holds = false;
                report.fail(number, text, why);
            }
        }
    }

    // Ends a story, before that line.
    fn end(self, number: usize, report: &mut ScriptReport) {
        let Story {
            alloc,
            core: _core,
            events,
            answers,
            holds: _holds,
        } = self;
        compare(number, &answers, answers_of(alloc, &events), report);
        compare(number, &answers, debugged_of(alloc, events), report);
    }
}

// Plays the stories of a text, each up to its first line that doesn't hold.
fn tell<F: Files>(alloc: Global, files: &mut F, text: &str, report: &mut ScriptReport) {
    let mut story = Story::new(alloc, false);
    for (index, line) in text.lines().enumerate() {
        let number = index.saturating_add(1);
        if line.starts_with("story ") {
            report.begin();
            story.end(number, report);
            story = Story::new(alloc, true);
        } else if story.holds && says(line) {
            story.line(files, number, line, report);
        }
    }
    story.end(text.lines().count(), report);
}

/// How many stories the file of that name has, or the lines at which another answer was found than was wanted. The files that they load lie
/// beside it.
pub fn found<F: Files>(alloc: Global, files: &mut F, name: &str) -> Result<String, TestRowError> {
    let text = text_of(named_file(alloc, files, name)?)?;
    let mut report = ScriptReport::new(alloc);
    tell(alloc, &mut Folder::of(name, files), &text, &mut report);
    report.found()
}

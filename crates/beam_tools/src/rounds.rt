//! How a call runs: in rounds over the processes, by their pids.
ghost use Rattle.std.specs.Prelude.{◌≡◌, ◌≤◌, IfOk};
ghost use Rattle.std.specs.Result.{IsOkUnless};
ghost use Rattle.beam_machine.specs.Next.{next};
ghost use Rattle.beam_machine.specs.NodeNative.{most_processes};
ghost use Rattle.beam_machine.specs.Ready.{next_deadline, ready_after};
ghost use Rattle.beam_machine.specs.State.{process_of};
ghost use Rattle.beam_tools.specs.Rounds.{at_time, by_deadline, by_ready, end_by, end_of, new_round, onward, outcome_of, rows_of, onward_of, turn, woken, IsWhole, RunsNoRows};

use beam_core::node::Core;
use beam_image::Image;
use beam_machine::event::{Event, Refused, Reply, Then};
use beam_proc::entry::ProcessEntry;
use beam_term::Term;

/// The most rows of a turn.
pub const MOST_ROWS: u32 = 4000;

/// The most processes of a node.
pub const MOST_PROCESSES: u32 = 268_435_455;

/// The process that a call starts.
pub const FIRST: u32 = 1;

/// The outcome of the rounds.
#[derive(Drop)]
pub enum CallOutcome {
    /// Process 1 ended.
    Ended { reason: Term, value: Term },
    /// No process can go on, and none has a deadline.
    Stuck,
    /// The budget of rows is spent.
    Spent,
}

/// How far the rounds have come.
pub struct Rounds {
    pub node: Core,
    /// The next process that can go on is looked for after this one; 0 begins a round.
    pub after: u32,
    /// Whether a process had its turn in this round.
    pub ran: bool,
    /// The rows that are left of the budget.
    pub left: u32,
}

impl Drop for Rounds {
    fn drop(self) {
        let Rounds {
            node: _node,
            after: _after,
            ran: _ran,
            left: _left,
        } = self;
    }
}

/// Applies an event that runs no rows. A refusal for another reason than memory changes nothing, and is ignored.
pub fn happen(node: &mut Core, event: &Event<Image>) -> Result<(), Refused>
    requires { RunsNoRows event.now }
    ensures state { IfOk result (λ _. node.new ≡ (next node.old event.now).state) }
    ensures memory { IsOkUnless result Refused.NoMemory }
{
    match node.apply(event) {
        Err(Refused::NoMemory) => Err(Refused::NoMemory),
        _ => Ok(()),
    }
}

// How many rows an answer counts, of `rows` that were asked for. `Err` where memory refused or stopped them, since then fewer were run than
// were meant.
fn counted(answer: &Result<Reply, Refused>, rows: u32) -> Result<u32, Refused>
    ensures whole { IfOk result (λ count. IsWhole rows answer.now) }
    ensures count { IfOk result (λ count. count ≡ rows_of answer.now) }
    ensures memory { IsOkUnless result Refused.NoMemory }
{
    match answer {
        Ok(
            Reply::Ran {
                count,
                then: Then::GoesOn,
            },
        ) => {
            if *count < rows {
                return Err(Refused::NoMemory);
            }
            Ok(*count)
        }
        Ok(Reply::Ran { count, .. }) => Ok(*count),
        Err(Refused::NoMemory) => Err(Refused::NoMemory),
        _ => Ok(0),
    }
}

// Runs rows of a process, and answers how many.
fn run_rows(node: &mut Core, pid: u32, rows: u32) -> Result<u32, Refused>
    ensures state { IfOk result (λ _. node.new ≡ (next node.old (Event.Steps pid rows)).state) }
    ensures count { IfOk result (λ count. count ≡ rows_of (next node.old (Event.Steps pid rows)).answer) }
    ensures within { IfOk result (λ count. count ≤ rows) }
    ensures memory { IsOkUnless result Refused.NoMemory }
{
    let answer = node.apply(&Event::Steps { pid, rows });
    counted(&answer, rows)
}

// Lets the processes go on whose deadlines have come by `now`, the least deadline first.
fn wake(node: &mut Core, now: u64) -> Result<(), Refused>
    ensures state { IfOk result (λ _. node.new ≡ woken most_processes now node.old) }
    ensures memory { IsOkUnless result Refused.NoMemory }
{
    for _ in 0..MOST_PROCESSES {
        let Some((at, pid)) = node.next_deadline() else {
            return Ok(());
        };
        if now < at {
            return Ok(());
        }
        happen(node, &Event::Timeout { pid })?;
    }
    Ok(())
}

// Moves the clock, and lets the processes go on whose deadlines have come.
fn pass_time(node: &mut Core, now: u64) -> Result<(), Refused>
    ensures state { IfOk result (λ _. node.new ≡ at_time now node.old) }
    ensures memory { IsOkUnless result Refused.NoMemory }
{
    happen(node, &Event::Clock { now })?;
    wake(node, now)
}

// How a process ended, if it has.
fn end_by(process: &ProcessEntry) -> Result<Option<CallOutcome>, Refused>
    ensures end { IfOk result (λ o. o ≡ end_by process.now.status) }
    ensures memory { IsOkUnless result Refused.NoMemory }
{
    match process.end() {
        Some((reason, value)) => Ok(Some(CallOutcome::Ended {
            reason: reason.clone()?,
            value: value.clone()?,
        })),
        None => Ok(None),
    }
}

impl Rounds {
    /// The first round of a budget of rows.
    pub fn new(node: Core, left: u32) -> Rounds
        ensures { result ≡ new_round node left }
    {
        Rounds {
            node,
            after: 0,
            ran: false,
            left,
        }
    }

    // How process 1 ended, if it has.
    fn end(&self) -> Result<Option<CallOutcome>, Refused>
        ensures end { IfOk result (λ o. o ≡ end_of (process_of self.now.node.processes 1)) }
        ensures memory { IsOkUnless result Refused.NoMemory }
    {
        match self.node.process(FIRST) {
            Some(process) => end_by(process),
            None => Ok(None),
        }
    }

    // Delivers the signals in transit to a process, and runs it.
    fn turn(&mut self, pid: u32) -> Result<(), Refused>
        ensures turn { IfOk result (λ _. self.new ≡ turn self.old pid) }
        ensures memory { IsOkUnless result Refused.NoMemory }
    {
        happen(&mut self.node, &Event::Deliver { pid })?;
        let rows = self.left.min(MOST_ROWS);
        let count = run_rows(&mut self.node, pid, rows)?;
        self.after = pid;
        self.ran = true;
        self.left -= count;
        Ok(())
    }

    fn begin_round(&mut self)
        ensures { self.new ≡ new_round self.old.node self.old.left }
    {
        self.after = 0;
        self.ran = false;
    }

    // Moves the clock to the least deadline, and begins a round; without a deadline no process can run.
    fn wait(&mut self) -> Result<Option<CallOutcome>, Refused>
        ensures onward { IfOk result (λ o. onward_of o self.new ≡ by_deadline self.old (next_deadline self.old.node.processes)) }
        ensures memory { IsOkUnless result Refused.NoMemory }
    {
        let Some((at, _)) = self.node.next_deadline() else {
            return Ok(Some(CallOutcome::Stuck));
        };
        pass_time(&mut self.node, at)?;
        self.begin_round();
        Ok(None)
    }

    // Gives the next process its turn, or begins the next round.
    fn advance(&mut self) -> Result<Option<CallOutcome>, Refused>
        ensures onward { IfOk result (λ o. onward_of o self.new ≡ by_ready self.old (ready_after self.old.after self.old.node.processes)) }
        ensures memory { IsOkUnless result Refused.NoMemory }
    {
        if let Some(pid) = self.node.ready(self.after) {
            self.turn(pid)?;
            return Ok(None);
        }
        if !self.ran {
            return self.wait();
        }
        self.begin_round();
        Ok(None)
    }

    // Takes one step of the rounds. Answers the outcome, or `None` if they go on.
    fn go_on(&mut self) -> Result<Option<CallOutcome>, Refused>
        ensures onward { IfOk result (λ o. onward_of o self.new ≡ onward self.old) }
        ensures memory { IsOkUnless result Refused.NoMemory }
    {
        if let Some(outcome) = self.end()? {
            return Ok(Some(outcome));
        }
        if self.left == 0 {
            return Ok(Some(CallOutcome::Spent));
        }
        self.advance()
    }

    /// Runs the processes until process 1 has ended, the budget is spent, or none can run.
    ///
    /// `NoMemory` where memory was refused on the way.
    pub fn run(&mut self) -> Result<CallOutcome, Refused>
        ensures outcome { IfOk result (λ o. o ≡ outcome_of self.old) }
        ensures memory { IsOkUnless result Refused.NoMemory }
    {
        for _ in 0..u64::MAX {
            if let Some(outcome) = self.go_on()? {
                return Ok(outcome);
            }
        }
        Ok(CallOutcome::Spent)
    }
}

//! The natives that the node answers. Each takes all its memory before it changes anything.
ghost use Rattle.std.specs.Prelude.{◌≡◌, ℕ, true, false, if◌then◌else◌, codes, List, Some, None, OnOk, OnErr, IfOk};
ghost use Rattle.beam_term.specs.TermValue.{atom_term};
ghost use Rattle.beam_model.specs.declared.native.NodeNative.TheVariants as native;
ghost use Rattle.beam_machine.specs.declared.process.Signal.TheVariants as TheSignal;
ghost use Rattle.beam_model.specs.Native.{elements_in};
ghost use Rattle.beam_machine.specs.NodeNative.{spawns, spawns_with, is_free, names, registers, unregisters, is_alive};
ghost use Rattle.beam_machine.specs.NodeNative.{posted_if_own, makes_reference, monitored, answer_of};
ghost use Rattle.beam_machine.specs.Process.{Process as TheProcess};
ghost use Rattle.beam_machine.specs.Row.{own_number};
ghost use Rattle.beam_state.specs.Pids.{number_in};
ghost use Rattle.beam_machine.specs.State.{live_process, registered};
ghost use Rattle.beam_laws.specs.Monitors.{AreRising};
ghost use Rattle.beam_state.specs.Returns.{Returns, ReturnsCounting, Sends, IsNext, does_send, is_make_ref, posted_if};
ghost use Rattle.beam_watches.specs.MonitorEntries.{AreBelow};

use crate::names::{live_index, own_number};
use crate::posting::post_if;
use crate::processes::Processes;
use crate::terms::{atom, elements, pid_or_undefined, truth};
use beam_machine::process::Signal;
use beam_model::exception::Fault;
use beam_model::native::NodeNative;
use beam_proc::private::Sent;
use beam_proc::process::Process;
use beam_proc::returning::ReturnValue;
use beam_term::{Atom, Pid, Term, TermView};
use std::alloc::{AllocError, Global};

fn spawns(
    alloc: Global,
    processes: &mut Processes,
    name: &Atom,
    function: &Atom,
    arguments: Vec<Term>,
) -> Result<Result<ReturnValue, Fault>, AllocError>
    ensures { Returns processes.old (spawns processes.old name.now function.now arguments.items) result processes.new }
{
    if arguments.len() > 255 {
        return Ok(Err(Fault::Badarg));
    }
    let Ok(count) = u32::try_from(processes.as_slice().len()) else {
        return Ok(Err(Fault::SystemLimit));
    };
    if count >= (1 << 28) - 1 {
        return Ok(Err(Fault::SystemLimit));
    }
    let known = processes.known(alloc)?;
    let pid = ReturnValue::new(known.pid(alloc, count + 1)?)?;
    let process = Process::start(
        alloc,
        known,
        count + 1,
        name.clone()?,
        function.clone()?,
        arguments,
    )?;
    processes.push(alloc, process)?;
    Ok(Ok(pid))
}

fn spawns_with(
    alloc: Global,
    processes: &mut Processes,
    name: &Atom,
    function: &Atom,
    arguments: &Term,
) -> Result<Result<ReturnValue, Fault>, AllocError>
    ensures { Returns processes.old (spawns_with processes.old name.now function.now (elements_in arguments.now)) result processes.new }
{
    match elements(alloc, arguments)? {
        Some(arguments) => spawns(alloc, processes, name, function, arguments),
        None => Ok(Err(Fault::Badarg)),
    }
}

fn is_free(processes: &Processes, name: &Atom) -> bool
    ensures { result ≡ is_free processes.now name.now }
{
    processes.registered(name).is_none() && name.as_str() != "undefined"
}

fn names(
    alloc: Global,
    processes: &mut Processes,
    name: &Atom,
    pid: u32,
) -> Result<Result<ReturnValue, Fault>, AllocError>
    ensures { Returns processes.old (names processes.old name.now pid (live_process processes.old pid)) result processes.new }
{
    let Some(index) = live_index(processes.as_slice(), pid) else {
        return Ok(Err(Fault::Badarg));
    };
    if !is_free(processes, name) {
        return Ok(Err(Fault::Badarg));
    }
    if processes.as_slice()[index].name().is_some() {
        return Ok(Err(Fault::Badarg));
    }
    let value = ReturnValue::new(truth(alloc, true)?)?;
    let name = name.clone()?;
    processes.register(index, name)?;
    Ok(Ok(value))
}

fn registers(
    alloc: Global,
    processes: &mut Processes,
    name: &Atom,
    pid: &Pid,
) -> Result<Result<ReturnValue, Fault>, AllocError>
    ensures { Returns processes.old (registers processes.old name.now (number_in pid.now)) result processes.new }
{
    match own_number(pid) {
        Some(pid) => names(alloc, processes, name, pid),
        None => Ok(Err(Fault::Badarg)),
    }
}

fn unregisters(
    alloc: Global,
    processes: &mut Processes,
    name: &Atom,
) -> Result<Result<ReturnValue, Fault>, AllocError>
    ensures { Returns processes.old (unregisters processes.old (registered processes.old name.now)) result processes.new }
{
    let Some(pid) = processes.registered(name) else {
        return Ok(Err(Fault::Badarg));
    };
    let Some(index) = live_index(processes.as_slice(), pid) else {
        return Ok(Err(Fault::Badarg));
    };
    let value = ReturnValue::new(truth(alloc, true)?)?;
    processes.change(index, |process| process.set_name(None));
    Ok(Ok(value))
}

fn is_alive(processes: &Processes, pid: &Pid) -> bool
    ensures { result ≡ is_alive processes.now (number_in pid.now) }
{
    match own_number(pid) {
        Some(pid) => live_index(processes.as_slice(), pid).is_some(),
        None => false,
    }
}

fn spawn(
    alloc: Global,
    processes: &mut Processes,
    arguments: &[Term],
) -> Result<Result<ReturnValue, Fault>, AllocError>
    ensures { (references caller : ℕ) → Returns processes.old (answer_of references processes.old caller native.Spawn arguments.now) result processes.new }
{
    let [name, function, list] = arguments else {
        return Ok(Err(Fault::Badarg));
    };
    match (name.view(), function.view()) {
        (TermView::Atom(name), TermView::Atom(function)) => {
            spawns_with(alloc, processes, name, function, list)
        }
        _ => Ok(Err(Fault::Badarg)),
    }
}

fn register(
    alloc: Global,
    processes: &mut Processes,
    arguments: &[Term],
) -> Result<Result<ReturnValue, Fault>, AllocError>
    ensures { (references caller : ℕ) → Returns processes.old (answer_of references processes.old caller native.Register arguments.now) result processes.new }
{
    let [name, pid] = arguments else {
        return Ok(Err(Fault::Badarg));
    };
    match (name.view(), pid.view()) {
        (TermView::Atom(name), TermView::Pid(pid)) => registers(alloc, processes, name, pid),
        _ => Ok(Err(Fault::Badarg)),
    }
}

fn unregister(
    alloc: Global,
    processes: &mut Processes,
    arguments: &[Term],
) -> Result<Result<ReturnValue, Fault>, AllocError>
    ensures { (references caller : ℕ) → Returns processes.old (answer_of references processes.old caller native.Unregister arguments.now) result processes.new }
{
    let [name] = arguments else {
        return Ok(Err(Fault::Badarg));
    };
    match name.view() {
        TermView::Atom(name) => unregisters(alloc, processes, name),
        _ => Ok(Err(Fault::Badarg)),
    }
}

fn whereis(
    alloc: Global,
    processes: &mut Processes,
    arguments: &[Term],
) -> Result<Result<ReturnValue, Fault>, AllocError>
    ensures { (references caller : ℕ) → Returns processes.old (answer_of references processes.old caller native.Whereis arguments.now) result processes.new }
{
    let [name] = arguments else {
        return Ok(Err(Fault::Badarg));
    };
    match name.view() {
        TermView::Atom(name) => {
            let number = processes.registered(name);
            let pid = pid_or_undefined(alloc, &processes.known(alloc)?, number)?;
            Ok(Ok(ReturnValue::new(pid)?))
        }
        _ => Ok(Err(Fault::Badarg)),
    }
}

fn is_process_alive(
    alloc: Global,
    processes: &Processes,
    arguments: &[Term],
) -> Result<Result<ReturnValue, Fault>, AllocError>
    ensures { (references caller : ℕ) → Returns processes.now (answer_of references processes.now caller native.IsProcessAlive arguments.now) result
        processes.now }
{
    let [pid] = arguments else {
        return Ok(Err(Fault::Badarg));
    };
    match pid.view() {
        TermView::Pid(pid) => {
            let alive = truth(alloc, is_alive(processes, pid))?;
            Ok(Ok(ReturnValue::new(alive)?))
        }
        _ => Ok(Err(Fault::Badarg)),
    }
}

// ---- natives that send a signal

/// The signal to the process that a pid names, if that is one of this node.
fn signal_to(pid: &Pid, signal: Signal) -> Option<Sent>
    ensures { (ps : List TheProcess) → posted_if ps result ≡ posted_if_own ps (number_in pid.now) signal }
{
    match own_number(pid) {
        Some(to) => Some(Sent { to, signal }),
        None => None,
    }
}

fn exit(
    alloc: Global,
    caller: u32,
    arguments: &[Term],
) -> Result<Result<(ReturnValue, Option<Sent>), Fault>, AllocError>
    ensures { (references : ℕ) (ps : List TheProcess) → Sends ps (answer_of references ps caller native.Exit arguments.now) result }
{
    let [pid, reason] = arguments else {
        return Ok(Err(Fault::Badarg));
    };
    let TermView::Pid(pid) = pid.view() else {
        return Ok(Err(Fault::Badarg));
    };
    let value = ReturnValue::new(truth(alloc, true)?)?;
    let reason = reason.clone()?;
    let sender = caller;
    Ok(Ok((value, signal_to(pid, Signal::Exit { sender, reason }))))
}

fn send(
    processes: &Processes,
    arguments: &[Term],
) -> Result<Result<(ReturnValue, Option<Sent>), Fault>, AllocError>
    ensures { (references caller : ℕ) → Sends processes.now (answer_of references processes.now caller native.Send arguments.now) result }
{
    let [to, message] = arguments else {
        return Ok(Err(Fault::Badarg));
    };
    let value = ReturnValue::new(message.clone()?)?;
    let signal = Signal::Message(message.clone()?);
    match to.view() {
        TermView::Pid(pid) => Ok(Ok((value, signal_to(pid, signal)))),
        TermView::Atom(name) => match processes.registered(name) {
            Some(to) => Ok(Ok((value, Some(Sent { to, signal })))),
            None => Ok(Err(Fault::Badarg)),
        },
        _ => Ok(Err(Fault::Badarg)),
    }
}

/// The value of a native that sends a signal and changes nothing else, and the signal; or its fault.
pub(crate) fn sending(
    alloc: Global,
    processes: &Processes,
    caller: u32,
    native: NodeNative,
    arguments: &[Term],
) -> Result<Result<(ReturnValue, Option<Sent>), Fault>, AllocError>
    requires { does_send native ≡ true }
    ensures { (references : ℕ) → Sends processes.now (answer_of references processes.now caller native arguments.now) result }
{
    match native {
        NodeNative::Exit => exit(alloc, caller, arguments),
        NodeNative::Send => send(processes, arguments),
        _ => unreachable!(),
    }
}

/// Sends the signal of a native that sends one, and answers its value or its fault. Where memory is refused nothing changes.
fn send_one(
    alloc: Global,
    processes: &mut Processes,
    caller: u32,
    native: NodeNative,
    arguments: &[Term],
) -> Result<Result<ReturnValue, Fault>, AllocError>
    requires { does_send native ≡ true }
    ensures { (references : ℕ) → Returns processes.old (answer_of references processes.old caller native arguments.now) result processes.new }
{
    match sending(alloc, processes, caller, native, arguments)? {
        Ok((value, sent)) => {
            post_if(processes, sent)?;
            Ok(Ok(value))
        }
        Err(fault) => Ok(Err(fault)),
    }
}

// ---- references and monitors

/// The next reference, if there can be one more: the value of make_ref.
pub(crate) fn next_reference(
    alloc: Global,
    processes: &mut Processes,
    references: u32,
    arguments: &[Term],
) -> Result<Result<Term, Fault>, AllocError>
    ensures next { (caller : ℕ) → IsNext references processes.old (answer_of references processes.old caller native.MakeRef arguments.now) result }
    ensures same { processes.new ≡ processes.old }
{
    let [] = arguments else {
        return Ok(Err(Fault::Badarg));
    };
    if references == u32::MAX {
        return Ok(Err(Fault::SystemLimit));
    }
    Ok(Ok(processes.known(alloc)?.reference(alloc, references + 1)?))
}

/// The DOWN of a monitor of a pid of which no process lives.
fn noproc(
    alloc: Global,
    processes: &Processes,
    reference: u32,
    pid: &Pid,
) -> Result<Option<Signal>, AllocError>
    ensures { IfOk result (λ down. down ≡ (if is_alive processes.now (number_in pid.now) then None
        else Some (TheSignal.Down reference (atom_term (codes "noproc"))))) }
{
    if is_alive(processes, pid) {
        return Ok(None);
    }
    let reason = atom(alloc, "noproc")?;
    Ok(Some(Signal::Down { reference, reason }))
}

/// A process monitors a pid under a reference. Where memory is refused nothing changes.
fn keep(
    alloc: Global,
    processes: &mut Processes,
    caller: u32,
    reference: u32,
    pid: &Pid,
    target: Term,
) -> Result<(), AllocError>
    requires named { own_number target ≡ number_in pid.now }
    requires below { (p : TheProcess) → live_process processes.old caller ≡ Some p → AreBelow reference p.monitors }
    ensures ok { OnOk result (processes.new ≡ monitored processes.old caller target reference) }
    ensures err { OnErr result (processes.new ≡ processes.old) }
{
    let Some(index) = live_index(processes.as_slice(), caller) else {
        return Ok(());
    };
    let down = noproc(alloc, processes, reference, pid)?;
    processes.monitor(index, caller, reference, target, down)
}

fn monitors(
    alloc: Global,
    processes: &mut Processes,
    references: &mut u32,
    caller: u32,
    pid: &Pid,
    target: Term,
) -> Result<Result<ReturnValue, Fault>, AllocError>
    requires named { own_number target ≡ number_in pid.now }
    requires rising { AreRising references.old processes.old }
    ensures { ReturnsCounting references.old processes.old (makes_reference references.old processes.old (monitored processes.old caller target)) result
        references.new processes.new }
{
    if *references == u32::MAX {
        return Ok(Err(Fault::SystemLimit));
    }
    let reference = *references + 1;
    let value = ReturnValue::new(processes.known(alloc)?.reference(alloc, reference)?)?;
    keep(alloc, processes, caller, reference, pid, target)?;
    *references = reference;
    Ok(Ok(value))
}

fn monitor(
    alloc: Global,
    processes: &mut Processes,
    references: &mut u32,
    caller: u32,
    arguments: &[Term],
) -> Result<Result<ReturnValue, Fault>, AllocError>
    requires { AreRising references.old processes.old }
    ensures { ReturnsCounting references.old processes.old (answer_of references.old processes.old caller native.Monitor arguments.now) result
        references.new processes.new }
{
    let [kind, target] = arguments else {
        return Ok(Err(Fault::Badarg));
    };
    match (kind.view(), target.view()) {
        (TermView::Atom(kind), TermView::Pid(pid)) if kind.as_str() == "process" => {
            monitors(alloc, processes, references, caller, pid, target.clone()?)
        }
        _ => Ok(Err(Fault::Badarg)),
    }
}

/// Answers the value or the fault of a native but make_ref that a process calls with these arguments. Where memory is refused nothing
/// changes.
pub(crate) fn answer_of(
    alloc: Global,
    processes: &mut Processes,
    references: &mut u32,
    caller: u32,
    native: NodeNative,
    arguments: &[Term],
) -> Result<Result<ReturnValue, Fault>, AllocError>
    requires other { is_make_ref native ≡ false }
    requires rising { AreRising references.old processes.old }
    ensures { ReturnsCounting references.old processes.old (answer_of references.old processes.old caller native arguments.now) result references.new processes.new }
{
    match native {
        NodeNative::Spawn => spawn(alloc, processes, arguments),
        NodeNative::Register => register(alloc, processes, arguments),
        NodeNative::Unregister => unregister(alloc, processes, arguments),
        NodeNative::Whereis => whereis(alloc, processes, arguments),
        NodeNative::IsProcessAlive => is_process_alive(alloc, processes, arguments),
        NodeNative::Exit => send_one(alloc, processes, caller, native, arguments),
        NodeNative::Send => send_one(alloc, processes, caller, native, arguments),
        NodeNative::Monitor => monitor(alloc, processes, references, caller, arguments),
        NodeNative::MakeRef => unreachable!(),
    }
}

//! The newest frame that a row needs, the frame that it leaves, and where it may go.
ghost use Rattle.std.specs.Prelude.{◌≡◌};
ghost use Rattle.std.specs.List.{list_all};
ghost use Rattle.beam_model.specs.Loadable.{is_none_label};
ghost use Rattle.beam_model.specs.Framed.{number, frame_effect, label_in, tag, is_total, built_in, may_fail, is_choice, is_size, are_choices, is_register, is_call, is_error, may_go_wrong, bif_may_fail, gc_bif_may_fail, may_fail_by, is_wrong_by, may_raise, calls_exit_by, calls_exit, never_returns, may_return, may_fall_through, called, native_by, never_jumps};
ghost use Rattle.beam_shapes.specs.Shown.{shown_effect};

use beam_bif::built_in::{built_in_of, is_erlang};
use beam_bif::name::{is_exit, native_named};
use beam_model::function::Import;
use beam_model::instruction::{Argument, Instruction, Operand};
use beam_model::native::{Binary, Native, Unary};
use beam_model::opcode::Opcode;

/// The newest frame that a row needs, and what the row makes of it, beside the registers.
#[derive(Clone, Copy)]
pub enum Effect {
    Keeps,
    WantsBare,
    /// Needs a frame without y registers, and makes this number of them.
    Allocates(u32),
    /// Needs exactly this number of y registers, and leaves none.
    Drops(u32),
    /// Needs exactly as many y registers as both numbers together, and drops the first of them, as many as the first number.
    Trims(u32, u32),
}

fn number(operand: &Operand) -> u32
    ensures { result ≡ number operand.now }
{
    match operand {
        Operand::One(Argument::Number(number)) => *number,
        _ => 0,
    }
}

/// Whether a native is there, and never returns.
fn calls_exit_by(native: Option<Native>) -> bool
    ensures { result ≡ calls_exit_by native }
{
    match native {
        Some(native) => is_exit(native),
        None => false,
    }
}

/// Whether a call is of a native that never returns.
fn calls_exit(operand: &Operand) -> bool
    ensures { result ≡ calls_exit operand.now }
{
    match operand {
        Operand::Import(import) => {
            is_erlang(&import.module) && calls_exit_by(native_named(&import.function, import.arity))
        }
        _ => false,
    }
}

pub fn effect_of(instruction: &Instruction) -> Effect
    ensures { shown_effect result ≡ frame_effect instruction.now }
{
    match (instruction.opcode, instruction.operands.as_slice()) {
        (Opcode::Allocate | Opcode::AllocateHeap, [size, ..]) => Effect::Allocates(number(size)),
        (Opcode::Deallocate, [size, ..]) => Effect::Drops(number(size)),
        (Opcode::CallLast, [_, _, size, ..]) => Effect::Drops(number(size)),
        (Opcode::CallExtLast, [_, function, size, ..]) => {
            if calls_exit(function) {
                Effect::Keeps
            } else {
                Effect::Drops(number(size))
            }
        }
        (Opcode::ApplyLast, [_, size, ..]) => Effect::Drops(number(size)),
        (Opcode::Trim, [first, rest, ..]) => Effect::Trims(number(first), number(rest)),
        (Opcode::Return | Opcode::CallOnly | Opcode::CallExtOnly, _) => Effect::WantsBare,
        _ => Effect::Keeps,
    }
}

fn label_in(operand: &Operand) -> Option<u32>
    ensures { result ≡ label_in operand.now }
{
    match operand {
        Operand::One(Argument::Label(label)) => Some(*label),
        _ => None,
    }
}

/// The label of the catch tag that the row puts into its register.
pub fn tag(instruction: &Instruction) -> Option<u32>
    ensures { result ≡ tag instruction.now }
{
    match (instruction.opcode, instruction.operands.as_slice()) {
        (Opcode::Catch | Opcode::Try, [_, label, ..]) => label_in(label),
        _ => None,
    }
}

/// Whether a built-in function has a value whatever its arguments are.
fn is_total(native: Option<Native>) -> bool
    ensures { result ≡ is_total native }
{
    matches!(
        native,
        Some(
            Native::Nullary(_)
                | Native::Unary(Unary::IsOfType(_))
                | Native::Binary(Binary::Compare(_) | Binary::Maximum | Binary::Minimum)
        )
    )
}

fn built_in(operand: &Operand) -> Option<Native>
    ensures { result ≡ built_in operand.now }
{
    match operand {
        Operand::Import(import) => built_in_of(import),
        _ => None,
    }
}

fn is_none_label(operand: &Operand) -> bool
    ensures { result ≡ is_none_label operand.now }
{
    match operand {
        Operand::One(Argument::Label(label)) => *label == 0,
        _ => false,
    }
}

fn may_fail(fail: &Operand, native: &Operand) -> bool
    ensures { result ≡ may_fail fail.now native.now }
{
    is_none_label(fail) && !is_total(built_in(native))
}

fn is_choice(argument: &Argument) -> bool
    ensures { result ≡ is_choice argument.now }
{
    matches!(
        argument,
        Argument::Term(_) | Argument::X(_) | Argument::Y(_)
    )
}

fn is_size(argument: &Argument) -> bool
    ensures { result ≡ is_size argument.now }
{
    matches!(argument, Argument::Number(_))
}

/// Whether arguments are values, each with a label.
fn are_values(arguments: &[Argument]) -> bool
    ensures { result ≡ are_choices is_choice arguments.now }
{
    let mut rest = arguments;
    while let [value, label, others @ ..] = rest {
        if !is_choice(value) || !matches!(label, Argument::Label(_)) {
            return false;
        }
        rest = others;
    }
    rest.is_empty()
}

/// Whether arguments are sizes, each with a label.
fn are_sizes(arguments: &[Argument]) -> bool
    ensures { result ≡ are_choices is_size arguments.now }
{
    let mut rest = arguments;
    while let [size, label, others @ ..] = rest {
        if !is_size(size) || !matches!(label, Argument::Label(_)) {
            return false;
        }
        rest = others;
    }
    rest.is_empty()
}

fn is_register(argument: &Argument) -> bool
    ensures { result ≡ is_register argument.now }
{
    matches!(argument, Argument::X(_) | Argument::Y(_))
}

fn are_registers(arguments: &[Argument]) -> bool
    ensures { result ≡ list_all is_register arguments.now }
{
    arguments.iter().all(is_register)
}

/// Whether rows of an opcode are calls, of which each may raise.
fn is_call(opcode: Opcode) -> bool
    ensures { result ≡ is_call opcode }
{
    match opcode {
        Opcode::Call
        | Opcode::CallLast
        | Opcode::CallOnly
        | Opcode::CallExt
        | Opcode::CallExtLast
        | Opcode::CallExtOnly
        | Opcode::Apply
        | Opcode::ApplyLast => true,
        _ => false,
    }
}

/// Whether rows of an opcode raise an error.
fn is_error(opcode: Opcode) -> bool
    ensures { result ≡ is_error opcode }
{
    match opcode {
        Opcode::FuncInfo
        | Opcode::IntCodeEnd
        | Opcode::TryCaseEnd
        | Opcode::Badmatch
        | Opcode::IfEnd
        | Opcode::CaseEnd
        | Opcode::Badrecord
        | Opcode::Raise
        | Opcode::RawRaise => true,
        _ => false,
    }
}

/// Whether rows of an opcode may raise by the terms that they find or make, for want of room on the stack, or without a message.
fn may_go_wrong(opcode: Opcode) -> bool
    ensures { result ≡ may_go_wrong opcode }
{
    match opcode {
        Opcode::Allocate
        | Opcode::AllocateHeap
        | Opcode::Send
        | Opcode::RemoveMessage
        | Opcode::LoopRecEnd
        | Opcode::WaitTimeout
        | Opcode::GetList
        | Opcode::GetHd
        | Opcode::GetTl
        | Opcode::GetTupleElement
        | Opcode::PutList
        | Opcode::PutTuple2
        | Opcode::UpdateRecord
        | Opcode::TryCase => true,
        _ => false,
    }
}

/// Whether a built-in function may fail without a label to go to instead, by the operands of `bif1` and `bif2`.
fn bif_may_fail(operands: &[Operand]) -> bool
    ensures { result ≡ bif_may_fail operands.now }
{
    match operands {
        [fail, native, ..] => may_fail(fail, native),
        _ => false,
    }
}

/// Whether a built-in function may fail without a label to go to instead, by the operands of `gc_bif1` and `gc_bif2`.
fn gc_bif_may_fail(operands: &[Operand]) -> bool
    ensures { result ≡ gc_bif_may_fail operands.now }
{
    match operands {
        [fail, _, native, ..] => may_fail(fail, native),
        _ => false,
    }
}

/// Whether a row calls a built-in function that may fail, without a label to go to instead.
fn may_fail_by(instruction: &Instruction) -> bool
    ensures { result ≡ may_fail_by instruction.now.opcode instruction.now.operands }
{
    match instruction.opcode {
        Opcode::Bif1 | Opcode::Bif2 => bif_may_fail(instruction.operands.as_slice()),
        Opcode::GcBif1 | Opcode::GcBif2 => gc_bif_may_fail(instruction.operands.as_slice()),
        _ => false,
    }
}

/// Whether the list operand of a row holds something else than its opcode allows.
fn is_wrong_by(instruction: &Instruction) -> bool
    ensures { result ≡ is_wrong_by instruction.now.opcode instruction.now.operands }
{
    match (instruction.opcode, instruction.operands.as_slice()) {
        (Opcode::SelectVal, [_, _, Operand::List(choices), ..]) => !are_values(choices.as_slice()),
        (Opcode::SelectTupleArity, [_, _, Operand::List(choices), ..]) => {
            !are_sizes(choices.as_slice())
        }
        (Opcode::InitYregs, [Operand::List(registers), ..]) => !are_registers(registers.as_slice()),
        _ => false,
    }
}

/// Whether the row may raise where its registers and its frame are as it needs them.
pub fn may_raise(instruction: &Instruction) -> bool
    ensures { result ≡ may_raise instruction.now }
{
    is_call(instruction.opcode)
        || is_error(instruction.opcode)
        || may_go_wrong(instruction.opcode)
        || may_fail_by(instruction)
        || is_wrong_by(instruction)
}

/// Whether a function is error or throw, of however many arguments, or exit/1.
fn never_returns(import: &Import) -> bool
    ensures { result ≡ never_returns import.now }
{
    if !is_erlang(&import.module) {
        return false;
    }
    match import.function.as_str() {
        "error" | "throw" => true,
        "exit" => import.arity == 1,
        _ => false,
    }
}

fn may_return(operand: &Operand) -> bool
    ensures { result ≡ may_return operand.now }
{
    match operand {
        Operand::Import(import) => !never_returns(import),
        _ => true,
    }
}

/// Whether the row may go to the next one.
pub fn may_fall_through(instruction: &Instruction) -> bool
    ensures { result ≡ may_fall_through instruction.now }
{
    match instruction.opcode {
        Opcode::FuncInfo
        | Opcode::IntCodeEnd
        | Opcode::CallLast
        | Opcode::CallOnly
        | Opcode::CallExtLast
        | Opcode::CallExtOnly
        | Opcode::ApplyLast
        | Opcode::Return
        | Opcode::LoopRecEnd
        | Opcode::Wait
        | Opcode::Jump
        | Opcode::SelectVal
        | Opcode::SelectTupleArity
        | Opcode::TryCaseEnd
        | Opcode::Badmatch
        | Opcode::IfEnd
        | Opcode::CaseEnd
        | Opcode::Badrecord
        | Opcode::Raise
        | Opcode::IsFloat
        | Opcode::IsPort
        | Opcode::IsBinary
        | Opcode::IsFunction
        | Opcode::IsMap => false,
        Opcode::CallExt => match instruction.operands.as_slice() {
            [_, function, ..] => may_return(function),
            _ => true,
        },
        _ => true,
    }
}

/// The label of the function that the row calls.
pub fn called(instruction: &Instruction) -> Option<u32>
    ensures { result ≡ called instruction.now }
{
    match (instruction.opcode, instruction.operands.as_slice()) {
        (Opcode::Call | Opcode::CallOnly | Opcode::CallLast, [_, label, ..]) => label_in(label),
        _ => None,
    }
}

/// The built-in function that a row with a fail label calls.
fn native_by(instruction: &Instruction) -> Option<Native>
    ensures { result ≡ native_by instruction.now.opcode instruction.now.operands }
{
    match (instruction.opcode, instruction.operands.as_slice()) {
        (Opcode::Bif1 | Opcode::Bif2, [_, native, ..]) => built_in(native),
        (Opcode::GcBif1 | Opcode::GcBif2, [_, _, native, ..]) => built_in(native),
        _ => None,
    }
}

/// Whether the row never jumps: its list operand isn't one that its opcode allows, or its built-in function has a value for all
/// arguments.
pub fn never_jumps(instruction: &Instruction) -> bool
    ensures { result ≡ never_jumps instruction.now }
{
    is_wrong_by(instruction) || is_total(native_by(instruction))
}

//! Which rows take little time, whatever their operands are: those that a turn under the node's lock executes. The cost of others grows with
//! a term, a list of operands, a frame or a stack, so no small number bounds it.
ghost use Rattle.std.specs.Prelude.{◌≡◌};

use crate::fetch::Fetcher;
use beam_image::instruction_record::{Record, ShortSource};
use beam_image::{Image, LinkedCode, LinkedRecord, ModuleRecords, OperandList};
use beam_machine::action::{Action, Compute, Source, Test};
use beam_machine::callee::Callee;
use beam_machine::process::Goes;
use beam_model::native::{Binary, Unary};
use beam_model::opcode::Opcode;
use beam_proc::process::Process;
use beam_term::{Term, TermView};

/// The most elements, y registers and other operands of a row that takes little time.
const FEW: usize = 64;

/// Which rows a run executes.
pub(crate) trait RowCosts {
    /// Whether a run executes the row of an image at a position. If not, it stops before it.
    fn admits(image: &Image, rows: &ModuleRecords<'_>, process: &Process, at: usize) -> bool;
}

/// All rows are executed.
pub(crate) struct AnyCost {}

impl RowCosts for AnyCost {
    #[inline(always)]
    fn admits(_image: &Image, _rows: &ModuleRecords<'_>, _process: &Process, _at: usize) -> bool {
        true
    }
}

/// Only rows are executed that take little time.
pub(crate) struct LittleCost {}

impl RowCosts for LittleCost {
    #[inline(always)]
    fn admits(image: &Image, rows: &ModuleRecords<'_>, process: &Process, at: usize) -> bool {
        match rows.record(at) {
            Some(row) => match *row.rec {
                Record::General(_, opcode) => {
                    is_cheap_opcode(opcode) || is_cheap_at(image, process, opcode, at)
                }
                _ => is_cheap(row.rec, row.code, process),
            },
            None => false,
        }
    }
}

/// Whether a term isn't made of others.
fn is_flat_term(term: &Term) -> bool {
    !matches!(term.view(), TermView::Pair(..) | TermView::Tuple(_))
}

/// Whether an x register has a term that isn't made of others, or was never written.
fn is_flat(process: &Process, x: u8) -> bool {
    match process.x_value(u32::from(x)) {
        Some(term) => is_flat_term(term),
        None => true,
    }
}

/// Whether a value is no term that is made of others, as far as that is seen at once.
fn is_flat_source(process: &Process, source: ShortSource) -> bool {
    match source {
        ShortSource::X(x) => is_flat(process, x),
        ShortSource::Y(_) => false,
        _ => true,
    }
}

/// Whether a list of operands is short. A value is looked up among choices, however many they are.
fn is_short(code: &LinkedCode, list: usize) -> bool {
    match code.list(list) {
        Some(OperandList::Sources(elements)) => elements.as_slice().len() <= FEW,
        Some(OperandList::Registers(registers)) => registers.as_slice().len() <= FEW,
        Some(OperandList::Choices(_) | OperandList::Sizes(_)) => true,
        _ => false,
    }
}

/// Whether a native of one argument takes little time.
fn is_cheap_unary(native: Unary) -> bool {
    match native {
        Unary::Length
        | Unary::TupleToList
        | Unary::ListToTuple
        | Unary::Error
        | Unary::Exit
        | Unary::Throw => false,
        _ => true,
    }
}

/// Whether a native of two arguments takes little time.
fn is_cheap_binary(native: Binary) -> bool {
    matches!(
        native,
        Binary::Compute(_) | Binary::And | Binary::Or | Binary::Xor | Binary::Element
    )
}

/// Whether an instruction without a record of its own takes little time. A wait with a timeout isn't among them, since it may need the moment
/// at which it begins.
fn is_cheap_opcode(opcode: Opcode) -> bool {
    matches!(
        opcode,
        Opcode::Bif0
            | Opcode::Move
            | Opcode::Swap
            | Opcode::Jump
            | Opcode::Call
            | Opcode::CallOnly
            | Opcode::GetHd
            | Opcode::GetTl
            | Opcode::GetList
            | Opcode::GetTupleElement
            | Opcode::PutList
            | Opcode::Try
            | Opcode::TryEnd
            | Opcode::Catch
            | Opcode::CatchEnd
            | Opcode::Timeout
            | Opcode::RecvMarkerBind
            | Opcode::RecvMarkerClear
            | Opcode::RecvMarkerReserve
            | Opcode::RecvMarkerUse
    )
}

/// Whether the row of a record of its own takes little time. Two terms are compared at once unless both are made of others.
fn is_cheap(rec: &Record, code: &LinkedCode, process: &Process) -> bool {
    match *rec {
        Record::LessX(_, left, right, _)
        | Record::GreaterOrEqualX(_, left, right, _)
        | Record::EqualX(_, left, right, _)
        | Record::NotEqualX(_, left, right, _) => is_flat(process, left) || is_flat(process, right),
        Record::LessOf(_, left, right, _)
        | Record::GreaterOrEqualOf(_, left, right, _)
        | Record::EqualOf(_, left, right, _)
        | Record::NotEqualOf(_, left, right, _)
        | Record::Compares(_, _, left, right, _) => {
            is_flat_source(process, left) || is_flat_source(process, right)
        }
        Record::Native1(_, native, ..) => is_cheap_unary(native),
        Record::Native2(_, native, ..) => is_cheap_binary(native),
        Record::PutTuple(_, _, list) => is_short(code, list as usize),
        Record::Clear(_, list) => is_short(code, list as usize),
        Record::SelectSize(_, _, list, _) => is_short(code, list as usize),
        Record::Allocate(_, size) | Record::Deallocate(_, size) => (size as usize) <= FEW,
        Record::CallLast(_, size, _) | Record::CallExtLast(_, size, _) => (size as usize) <= FEW,
        Record::Trim(_, dropped, _) => (dropped as usize) <= FEW,
        _ => true,
    }
}

/// Whether a native and its operands take little time.
fn is_cheap_compute(compute: &Compute<'_>) -> bool {
    match compute {
        Compute::Of0 { .. } => true,
        Compute::Of1 { native, .. } => is_cheap_unary(*native),
        Compute::Of2 { native, .. } => is_cheap_binary(*native),
    }
}

/// Whether what a row reads is no term that is made of others, as far as that is seen at once.
fn is_flat_operand(process: &Process, source: &Source<'_>) -> bool {
    match source {
        Source::Constant(constant) => is_flat_term(constant.term()),
        Source::X(x) => match process.x_value(*x) {
            Some(term) => is_flat_term(term),
            None => true,
        },
        Source::Y(_) => false,
    }
}

/// Whether a test takes little time.
fn is_cheap_test(process: &Process, test: &Test<'_>) -> bool {
    match test {
        Test::Compare { left, right, .. } => {
            is_flat_operand(process, left) || is_flat_operand(process, right)
        }
        _ => true,
    }
}

/// Whether the instruction at a position, which is read from its bytes, takes little time: a native or a test over other operands than those
/// of records.
fn is_cheap_at(image: &Image, process: &Process, opcode: Opcode, at: usize) -> bool {
    let may_be_cheap = matches!(
        opcode,
        Opcode::IsLt
            | Opcode::IsGe
            | Opcode::IsEq
            | Opcode::IsNe
            | Opcode::IsEqExact
            | Opcode::IsNeExact
            | Opcode::Bif1
            | Opcode::Bif2
            | Opcode::GcBif1
            | Opcode::GcBif2
    );
    if !may_be_cheap {
        return false;
    }
    match image.step(at) {
        Some(step) => match &step.action {
            Action::Compute { compute, .. } => is_cheap_compute(compute),
            Action::Test { test, .. } => is_cheap_test(process, test),
            _ => false,
        },
        None => false,
    }
}

/// Whether a row that isn't a quick one takes little time: it sends, waits, calls a native of the node, or ends the process by its last
/// return. Any other row with a record of its own raises. `may_wait_for_time`: whether a wait with a timeout may begin.
fn asks_little(row: &LinkedRecord<'_>, may_wait_for_time: bool) -> bool {
    match *row.rec {
        Record::General(_, Opcode::WaitTimeout) => may_wait_for_time,
        Record::General(_, opcode) => is_cheap_opcode(opcode),
        Record::Send(_) | Record::Wait(..) | Record::Return(_) => true,
        Record::CallExt(_, import)
        | Record::CallExtOnly(_, import)
        | Record::CallExtLast(_, _, import) => {
            matches!(row.code.callee(import as usize), Some(Callee::Node { .. }))
        }
        _ => false,
    }
}

/// Whether the next row of a process, which isn't a quick one, takes little time. The first row enters a function. `has_moment`: whether
/// the node's clock has the moment at which a wait with a timeout would begin; a wait that has begun goes on without it.
pub(crate) fn admits_next(fetcher: &mut Fetcher<'_>, process: &Process, has_moment: bool) -> bool
    ensures code { fetcher.new ≡ fetcher.old }
{
    match process.goes() {
        Goes::At(place) => match fetcher.record(*place) {
            Some(row) => asks_little(&row, has_moment || process.deadline().is_some()),
            None => false,
        },
        Goes::Enter { .. } => true,
        Goes::Nowhere => false,
    }
}

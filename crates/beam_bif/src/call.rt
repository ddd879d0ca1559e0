//! Calls of natives by their arguments, with no look-up on the way.

ghost use Rattle.std.specs.Prelude.{◌≡◌};
ghost use Rattle.beam_model.specs.Native.{compares, nullary_value, unary_value, binary_value, ternary_value, native_value};
ghost use Rattle.beam_bif.specs.Gives.{Gives};

use crate::arithmetic::{abs_of, bit_not_of, compute, negation_of};
use crate::comparison::{is_at_least, is_at_most, is_equal, is_greater, is_less, is_unequal};
use crate::error::NativeError;
use crate::list::{append_of, head_of, length_of, list_of_atom, list_of_integer, tail_of};
use crate::raise::{raise, raise_of};
use crate::truth::{and_of, not_of, or_of, xor_of};
use crate::tuples::{element_of, list_of_tuple, set_element_of, tuple_of_list, tuple_size_of};
use crate::type_test::is_of_type;
use crate::value::{atom, or_raised, raised, shared, truth};
use beam_model::exception::{Class, Fault};
use beam_model::native::{Binary, Comparison, Native, Nullary, Ternary, Unary};
use beam_term::Term;
use std::alloc::Global;

/// Whether the comparison holds of two terms.
pub fn compares(comparison: Comparison, left: &Term, right: &Term) -> bool
    ensures { result ≡ compares comparison left.now right.now }
{
    match comparison {
        Comparison::Equal => is_equal(left, right),
        Comparison::NotEqual => is_unequal(left, right),
        Comparison::Less => is_less(left, right),
        Comparison::LessOrEqual => is_at_most(left, right),
        Comparison::Greater => is_greater(left, right),
        Comparison::GreaterOrEqual => is_at_least(left, right),
    }
}

/// A native of no argument, in the process of this pid.
pub fn call0(alloc: Global, native: Nullary, own: &Term) -> Result<Term, NativeError>
    ensures { Gives result (nullary_value native own.now) }
{
    match native {
        Nullary::OwnPid => shared(own),
        Nullary::Node => atom(alloc, "nonode@nohost"),
    }
}

/// A native of one argument.
pub fn call1(alloc: Global, native: Unary, argument: &Term) -> Result<Term, NativeError>
    ensures { Gives result (unary_value native argument.now) }
{
    match native {
        Unary::Negate => or_raised(negation_of(argument)),
        Unary::BitNot => or_raised(bit_not_of(argument)),
        Unary::Abs => or_raised(abs_of(argument)),
        Unary::Not => not_of(alloc, argument),
        Unary::IsOfType(test) => truth(alloc, is_of_type(test, argument)),
        Unary::Head => head_of(argument),
        Unary::Tail => tail_of(argument),
        Unary::Length => or_raised(length_of(argument)),
        Unary::TupleSize => or_raised(tuple_size_of(argument)),
        Unary::Error => raise(Class::Error, argument),
        Unary::Exit => raise(Class::Exit, argument),
        Unary::Throw => raise(Class::Throw, argument),
        Unary::TupleToList => list_of_tuple(alloc, argument),
        Unary::ListToTuple => tuple_of_list(alloc, argument),
        Unary::AtomToList => list_of_atom(alloc, argument),
        Unary::IntegerToList => list_of_integer(alloc, argument),
    }
}

/// A native of two arguments.
pub fn call2(
    alloc: Global,
    native: Binary,
    first: &Term,
    second: &Term,
) -> Result<Term, NativeError>
    ensures { Gives result (binary_value native first.now second.now) }
{
    match native {
        Binary::Compute(operation) => or_raised(compute(operation, first, second)),
        Binary::Compare(comparison) => truth(alloc, compares(comparison, first, second)),
        Binary::Maximum => shared(if is_less(first, second) {
            second
        } else {
            first
        }),
        Binary::Minimum => shared(if is_greater(first, second) {
            second
        } else {
            first
        }),
        Binary::And => and_of(alloc, first, second),
        Binary::Or => or_of(alloc, first, second),
        Binary::Xor => xor_of(alloc, first, second),
        Binary::Element => element_of(first, second),
        Binary::Error => raise(Class::Error, first),
        Binary::Append => append_of(alloc, first, second),
    }
}

/// A native of three arguments.
pub fn call3(
    alloc: Global,
    native: Ternary,
    first: &Term,
    second: &Term,
    third: &Term,
) -> Result<Term, NativeError>
    ensures { Gives result (ternary_value native first.now second.now third.now) }
{
    match native {
        Ternary::Raise => raise_of(alloc, first, second),
        Ternary::SetElement => set_element_of(alloc, first, second, third),
    }
}

/// A native of these arguments, in the process of this pid. Undef where their number is another than the native's.
pub fn call(
    alloc: Global,
    native: Native,
    arguments: &[Term],
    own: &Term,
) -> Result<Term, NativeError>
    ensures { Gives result (native_value native arguments.now own.now) }
{
    match (native, arguments) {
        (Native::Nullary(f), []) => call0(alloc, f, own),
        (Native::Unary(f), [first]) => call1(alloc, f, first),
        (Native::Binary(f), [first, second]) => call2(alloc, f, first, second),
        (Native::Ternary(f), [first, second, third]) => call3(alloc, f, first, second, third),
        _ => Err(raised(Fault::Undef)),
    }
}

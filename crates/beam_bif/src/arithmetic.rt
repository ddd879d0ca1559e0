//! Integers: sums, products, quotients, bits and shifts. Nothing here takes memory.

ghost use Rattle.std.specs.Prelude.{◌≡◌, ◌^◌, pos, ◌*ℤ◌};
ghost use Rattle.std.specs.Int.{int_shr};
ghost use Rattle.beam_term.specs.TermValue.{IsSmall};
ghost use Rattle.beam_model.specs.Native.{limited, sum_of, difference_of, computed, compute, shifted_left, negation_of, bit_not_of, abs_of};
ghost use Rattle.beam_model.specs.declared.native.Arithmetic.TheVariants.{Divide, Remainder};

use beam_model::exception::Fault;
use beam_model::native::Arithmetic;
use beam_term::{Term, TermView};

// The integer as a term, where it is in the range of integers.
fn limited(n: i64) -> Result<Term, Fault>
    ensures { result ≡ limited n }
{
    if n >= -(1 << 59) && n < 1 << 59 {
        Ok(Term::integer(n))
    } else {
        Err(Fault::SystemLimit)
    }
}

/// The sum of two integers.
pub fn sum_of(left: &Term, right: &Term) -> Result<Term, Fault>
    ensures { result ≡ sum_of left.now right.now }
{
    match left.view() {
        TermView::Integer(m) => match right.view() {
            TermView::Integer(n) => limited(m + n),
            _ => Err(Fault::Badarith),
        },
        _ => Err(Fault::Badarith),
    }
}

/// The first of two integers less the second.
pub fn difference_of(left: &Term, right: &Term) -> Result<Term, Fault>
    ensures { result ≡ difference_of left.now right.now }
{
    match left.view() {
        TermView::Integer(m) => match right.view() {
            TermView::Integer(n) => limited(m - n),
            _ => Err(Fault::Badarith),
        },
        _ => Err(Fault::Badarith),
    }
}

fn product(m: i64, n: i64) -> Result<Term, Fault>
    ensures { result ≡ limited (m *ℤ n) }
{
    match m.checked_mul(n) {
        Some(product) => limited(product),
        None => Err(Fault::SystemLimit),
    }
}

fn quotient(m: i64, n: i64) -> Result<Term, Fault>
    requires { IsSmall m }
    ensures { result ≡ computed Divide m n }
{
    if n == 0 {
        return Err(Fault::Badarith);
    }
    limited(m / n)
}

fn remainder(m: i64, n: i64) -> Result<Term, Fault>
    requires { IsSmall m }
    ensures { result ≡ computed Remainder m n }
{
    if n == 0 {
        return Err(Fault::Badarith);
    }
    limited(m % n)
}

// m times 2 to the power `places`.
fn left_by(m: i64, places: u64) -> Result<Term, Fault>
    ensures { result ≡ limited (m *ℤ pos (2 ^ places)) }
{
    if m == 0 {
        limited(0)
    } else if places < 60 {
        product(m, 1 << places)
    } else {
        Err(Fault::SystemLimit)
    }
}

// m over 2 to the power `places`, rounded down.
fn right_by(m: i64, places: u64) -> Result<Term, Fault>
    requires { IsSmall m }
    ensures { result ≡ limited (int_shr m places) }
{
    limited(m >> places.min(63))
}

fn shifted_left(m: i64, places: i64) -> Result<Term, Fault>
    requires { IsSmall m }
    ensures { result ≡ limited (shifted_left m places) }
{
    if places >= 0 {
        left_by(m, places.unsigned_abs())
    } else {
        right_by(m, places.unsigned_abs())
    }
}

/// A function of two integers, as `compute` gives it of two terms.
pub fn computed(operation: Arithmetic, m: i64, n: i64) -> Result<Term, Fault>
    requires first { IsSmall m }
    requires second { IsSmall n }
    ensures { result ≡ computed operation m n }
{
    match operation {
        Arithmetic::Add => limited(m + n),
        Arithmetic::Subtract => limited(m - n),
        Arithmetic::Multiply => product(m, n),
        Arithmetic::Divide => quotient(m, n),
        Arithmetic::Remainder => remainder(m, n),
        Arithmetic::BitAnd => limited(m & n),
        Arithmetic::BitOr => limited(m | n),
        Arithmetic::BitXor => limited(m ^ n),
        Arithmetic::ShiftLeft => shifted_left(m, n),
        Arithmetic::ShiftRight => shifted_left(m, -n),
    }
}

/// A function of two integers. `div` and `rem` truncate, bits are those of two's complement, and a shift by a negative number of
/// places goes the other way. Badarith where one isn't an integer or a divisor is 0, SystemLimit where the value is out of range.
pub fn compute(operation: Arithmetic, left: &Term, right: &Term) -> Result<Term, Fault>
    ensures { result ≡ compute operation left.now right.now }
{
    match left.view() {
        TermView::Integer(m) => match right.view() {
            TermView::Integer(n) => computed(operation, m, n),
            _ => Err(Fault::Badarith),
        },
        _ => Err(Fault::Badarith),
    }
}

/// The integer with the other sign.
pub fn negation_of(term: &Term) -> Result<Term, Fault>
    ensures { result ≡ negation_of term.now }
{
    match term.view() {
        TermView::Integer(n) => limited(-n),
        _ => Err(Fault::Badarith),
    }
}

/// The integer with each bit turned, in two's complement.
pub fn bit_not_of(term: &Term) -> Result<Term, Fault>
    ensures { result ≡ bit_not_of term.now }
{
    match term.view() {
        TermView::Integer(n) => limited(!n),
        _ => Err(Fault::Badarith),
    }
}

/// The integer without its sign. Badarg where it isn't an integer.
pub fn abs_of(term: &Term) -> Result<Term, Fault>
    ensures { result ≡ abs_of term.now }
{
    match term.view() {
        TermView::Integer(n) => limited(n.abs()),
        _ => Err(Fault::Badarg),
    }
}

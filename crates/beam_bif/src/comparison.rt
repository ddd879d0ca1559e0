//! Comparisons, by the order of terms. The exact and the plain ones agree, since all numbers are integers.

ghost use Rattle.std.specs.Prelude.{◌≡◌};
ghost use Rattle.beam_model.specs.Native.{is_equal, is_unequal, is_less, is_at_most, is_greater, is_at_least};

use beam_term::Term;

/// `==` and `=:=`
pub fn is_equal(left: &Term, right: &Term) -> bool
    ensures { result ≡ is_equal left.now right.now }
{
    left.cmp(right).is_eq()
}

/// `/=` and `=/=`
pub fn is_unequal(left: &Term, right: &Term) -> bool
    ensures { result ≡ is_unequal left.now right.now }
{
    left.cmp(right).is_ne()
}

/// `<`
pub fn is_less(left: &Term, right: &Term) -> bool
    ensures { result ≡ is_less left.now right.now }
{
    left.cmp(right).is_lt()
}

/// `=<`
pub fn is_at_most(left: &Term, right: &Term) -> bool
    ensures { result ≡ is_at_most left.now right.now }
{
    left.cmp(right).is_le()
}

/// `>`
pub fn is_greater(left: &Term, right: &Term) -> bool
    ensures { result ≡ is_greater left.now right.now }
{
    left.cmp(right).is_gt()
}

/// `>=`
pub fn is_at_least(left: &Term, right: &Term) -> bool
    ensures { result ≡ is_at_least left.now right.now }
{
    left.cmp(right).is_ge()
}

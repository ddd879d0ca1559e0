//! Lists of places, rising, each once.
ghost use Rattle.std.specs.Prelude.{◌≡◌, ◌≤◌, IfSome, OnOk, OnErr, length};
ghost use Rattle.beam_machine.specs.Debug.{comes_before, with_spot, without_spot};
ghost use Rattle.beam_debug.specs.InsertPosition.{spot_insert_position};

use beam_model::place::{Place, is_same_place};
use std::alloc::AllocError;

fn comes_before(a: Place, b: Place) -> bool
    ensures { result ≡ comes_before a b }
{
    a.instance() < b.instance() || (a.instance() == b.instance() && a.at() < b.at())
}

/// The position at which a place is to be inserted; `None` if it is there.
fn insert_position(place: Place, spots: &[Place]) -> Option<usize>
    ensures at { result ≡ spot_insert_position place 0 spots.now }
    ensures within { IfSome result (λ at. at ≤ length spots.now) }
{
    let mut at = 0;
    let mut rest = spots;
    while let Some((first, more)) = rest.split_first() {
        if is_same_place(place, *first) {
            return None;
        }
        if comes_before(place, *first) {
            return Some(at);
        }
        at += 1;
        rest = more;
    }
    Some(at)
}

/// Inserts a place, unless it is there. Where memory is refused nothing changes.
pub(crate) fn put(place: Place, spots: &mut Vec<Place>) -> Result<(), AllocError>
    ensures ok { OnOk result (spots.new.items ≡ with_spot place spots.old.items) }
    ensures err { OnErr result (spots.new.items ≡ spots.old.items) }
{
    match insert_position(place, spots) {
        Some(at) => {
            spots.insert(at, place)?;
            Ok(())
        }
        None => Ok(()),
    }
}

/// Takes out a place.
pub(crate) fn take_out(place: Place, spots: &mut Vec<Place>)
    ensures { spots.new.items ≡ without_spot place spots.old.items }
{
    spots.retain(move |other| !is_same_place(*other, place));
}

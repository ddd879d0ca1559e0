//! Break spots: the rows before which a process stops.
ghost use Rattle.std.specs.Prelude.{◌≡◌, true, List};
ghost use Rattle.beam_model.specs.Place.{Place as ThePlace};
ghost use Rattle.beam_machine.specs.Debug.{is_at_spot, is_spot};
ghost use Rattle.beam_rows.specs.Spots.{AreElsewhere, HasSpotsOf};

use beam_machine::process::Goes;
use beam_model::place::{Place, is_same_place};
use beam_proc::process::Process;
use std::marker::Model;

/// Break spots, as rows ask for them.
pub trait Spots {
    ghost places: { Self → List ThePlace };

    /// Whether the next row of a process is that of a break spot.
    fn is_at(&mut self, process: &Process) -> bool
        ensures at { result ≡ is_at_spot (places self.old) process.now.goes }
        ensures same { places self.new ≡ places self.old };

    /// Whether no break spot is in the instance where a process stands. It may be false of a process that doesn't stand at a row.
    fn are_elsewhere(&mut self, process: &Process) -> bool
        ensures elsewhere { result ≡ true → AreElsewhere (places self.old) process.now.goes }
        ensures same { places self.new ≡ places self.old };
}

/// Break spots, with those of one instance at hand. Rows of an instance without break spots are compared with none.
#[derive(Drop)]
pub struct BreakSpots<'a> {
    all: &'a [Place],
    instance: u32,
    /// From the first break spot of that instance on.
    near: &'a [Place],
}

impl<'a> Model for BreakSpots<'a> {
    ghost use Rattle.std.specs.Prelude.{List};
    ghost use Rattle.beam_model.specs.Place.{Place as ThePlace};
    ghost use Rattle.beam_rows.specs.Spots.{HasSpotsOf};

    ghost Value = { List ThePlace };

    ghost view = { λ s. s.all.now };

    ghost invariant = { λ s. HasSpotsOf s.instance s.near.now s.all.now };
}

/// Whether a place is among these break spots.
pub fn is_spot(place: Place, spots: &[Place]) -> bool
    ensures { result ≡ is_spot place spots.now }
{
    spots.iter().any(|spot| is_same_place(*spot, place))
}

/// The break spots from the first of an instance on.
fn from_instance(instance: u32, spots: &[Place]) -> &[Place]
    ensures { HasSpotsOf instance result.now spots.now }
{
    let mut rest = spots;
    while let Some((first, more)) = rest.split_first() {
        if first.instance() == instance {
            return rest;
        }
        rest = more;
    }
    rest
}

impl<'a> BreakSpots<'a> {
    /// These break spots, with those of no instance at hand.
    pub fn new(spots: &'a [Place]) -> BreakSpots<'a>
        ensures { result ≡ spots.now }
    {
        BreakSpots {
            all: spots,
            instance: 0,
            near: from_instance(0, spots),
        }
    }

    /// The break spots from the first of an instance on.
    #[inline(always)]
    fn near(&mut self, instance: u32) -> &'a [Place]
        ensures near { HasSpotsOf instance result.now self.old }
        ensures same { self.new ≡ self.old }
    {
        if instance != self.instance {
            let all = self.all;
            *self = BreakSpots {
                all,
                instance,
                near: from_instance(instance, all),
            };
        }
        self.near
    }

    /// Whether a place is one of them.
    fn has(&mut self, place: Place) -> bool
        ensures is { result ≡ is_spot place self.old }
        ensures same { self.new ≡ self.old }
    {
        let instance = place.instance();
        is_spot(place, self.near(instance))
    }
}

impl<'a> Spots for BreakSpots<'a> {
    ghost places = { λ s. s };

    fn is_at(&mut self, process: &Process) -> bool {
        match process.goes() {
            Goes::At(place) => self.has(*place),
            Goes::Enter { .. } => false,
            Goes::Nowhere => false,
        }
    }

    fn are_elsewhere(&mut self, process: &Process) -> bool {
        match process.goes() {
            Goes::At(place) => self.near(place.instance()).is_empty(),
            Goes::Enter { .. } => false,
            Goes::Nowhere => false,
        }
    }
}

/// No break spots.
#[derive(Drop)]
pub struct NoSpots {}

impl Spots for NoSpots {
    ghost use Rattle.std.specs.Prelude.{[]};

    ghost places = { λ s. [] };

    #[inline(always)]
    fn is_at(&mut self, _process: &Process) -> bool {
        false
    }

    #[inline(always)]
    fn are_elsewhere(&mut self, _process: &Process) -> bool {
        true
    }
}

//! Where a process goes on, and how old the code is in which it does.
ghost use Rattle.std.specs.Prelude.{◌≡◌, IfOk};
ghost use Rattle.beam_looks.specs.Places.{age_of, image_age, place_of, row_at};

use beam_codesrv::CodeTable;
use beam_image::Image;
use beam_machine::process::Goes;
use beam_model::place::Place;
use beam_page::CodeAge;
use beam_term::Atom;
use std::alloc::AllocError;

/// Where a process goes on.
#[derive(Drop)]
pub enum RowPlace {
    /// At a row of an instance, whose image is shared; none where the instance is gone.
    Row {
        place: Place,
        age: CodeAge,
        image: Option<Image>,
    },
    /// At its first entry.
    Entry {
        module: Atom,
        function: Atom,
        arity: u32,
    },
    /// Nowhere: it has ended.
    Nowhere,
}

/// The age of the instance of that number, which has this image.
fn image_age(table: &CodeTable, image: &Image, number: u32) -> CodeAge
    ensures { result ≡ image_age table.now image.now number }
{
    match table.current(image.module()) {
        Some(current) if current == number => CodeAge::Current,
        _ => CodeAge::Old,
    }
}

/// The row at a place, with the image of its instance, which is shared. `NoMemory` where that can't be counted.
pub fn row_place(table: &CodeTable, place: Place) -> Result<RowPlace, AllocError>
    ensures { IfOk result (λ row. row ≡ row_at table.now place) }
{
    match table.image_of(place.instance()) {
        Some(image) => Ok(RowPlace::Row {
            place,
            age: image_age(table, image, place.instance()),
            image: Some(image.try_share()?),
        }),
        None => Ok(RowPlace::Row {
            place,
            age: CodeAge::Gone,
            image: None,
        }),
    }
}

/// Where a process goes on.
pub(crate) fn place_of(table: &CodeTable, goes: &Goes) -> Result<RowPlace, AllocError>
    ensures { IfOk result (λ place. place ≡ place_of table.now goes.now) }
{
    match goes {
        Goes::At(place) => row_place(table, *place),
        Goes::Enter {
            module,
            function,
            arity,
        } => Ok(RowPlace::Entry {
            module: module.clone()?,
            function: function.clone()?,
            arity: *arity,
        }),
        Goes::Nowhere => Ok(RowPlace::Nowhere),
    }
}

//! The row that a spot names.
ghost use Rattle.std.specs.Prelude.{◌≡◌, option_map, option_and_then};
ghost use Rattle.beam_model.specs.Fetch.{instruction_at};
ghost use Rattle.beam_model.specs.Listing.{is_this_number, label_of, row_of_label};
ghost use Rattle.beam_machine.specs.Code.{listing_of, versions_of};
ghost use Rattle.beam_machine.specs.Debug.{rows_after, row_in, instance_of_version, place_named};

use beam_codesrv::CodeTable;
use beam_image::Image;
use beam_machine::debug::{Spot, Version};
use beam_model::place::Place;

fn is_number(label: u32, found: Option<u32>) -> bool
    ensures { result ≡ is_this_number label found }
{
    match found {
        Some(number) => number == label,
        None => false,
    }
}

/// Whether the instruction at a position is that label.
fn is_label_at(image: &Image, at: usize, label: u32) -> bool
    ensures { result ≡ is_this_number label (label_of (instruction_at image.now at)) }
{
    is_number(label, image.fetch(Place::new(0, at)).label())
}

/// The position of the first row after a label.
fn row_of_label(image: &Image, label: u32) -> Option<usize>
    ensures { result ≡ row_of_label label 0 image.now.instructions }
{
    let mut at = 0;
    while let Some(next) = image.next(at) {
        if is_label_at(image, at, label) {
            return Some(next);
        }
        at += 1;
    }
    None
}

/// The position `rows` rows after `start`, if a row is there.
fn rows_after(image: &Image, rows: u32, start: usize) -> Option<usize>
    ensures { result ≡ rows_after rows start image.now.instructions }
{
    let mut at = start;
    let mut left = rows;
    while let Some(next) = image.next(at) {
        if left == 0 {
            return Some(at);
        }
        at = next;
        left -= 1;
    }
    None
}

/// The place of the row that a label and a count of rows name in the instance of this image and that number.
fn row_in(image: &Image, number: u32, label: u32, rows: u32) -> Option<Place>
    ensures { result ≡ row_in label rows (record { number = number; listing = image.now }) }
{
    let first = row_of_label(image, label)?;
    let at = rows_after(image, rows, first)?;
    Some(Place::new(number, at))
}

/// The number of the instance in which a spot lies.
fn number_of(table: &CodeTable, spot: &Spot) -> Option<u32>
    ensures { result ≡ option_map (λ i. i.number) (instance_of_version spot.now.version (versions_of table.now spot.now.«module»)) }
{
    match spot.version {
        Version::Current => table.current(&spot.module),
        Version::Old => table.old(&spot.module),
    }
}

/// The place of the row that a label and a count of rows name in the instance of that number.
fn row_of(table: &CodeTable, number: u32, label: u32, rows: u32) -> Option<Place>
    ensures { result ≡ option_and_then (λ l. row_in label rows (record { number = number; listing = l })) (listing_of table.now number) }
{
    let image = table.image_of(number)?;
    row_in(image, number, label, rows)
}

/// The place of the row that a spot names. `None` where the module has no such instance, the instance no such label, or no row is `rows`
/// rows after the label's first. It takes no memory, and time linear in the size of the module.
pub fn place_named(table: &CodeTable, spot: &Spot) -> Option<Place>
    ensures { result ≡ place_named table.now spot.now }
{
    let number = number_of(table, spot)?;
    // No other instance has this number.
    let _live = table.is_live(number);
    row_of(table, number, spot.label, spot.rows)
}

//! Views of a process, as text.
ghost use Rattle.std.specs.Prelude.{◌≡◌, ◌++◌, IfOk, OnOk, OnErr, map, option_map};
ghost use Rattle.std.specs.Fmt.{decimal};
ghost use Rattle.beam_model.specs.ListingText.{instruction_text};
ghost use Rattle.beam_model.specs.Text.{atom_text};
ghost use Rattle.beam_machine.specs.View.{back_text, counts_text, frames_text, function_text, function_text_if, instruction_in, live_text, next_text, slot_text, location_text, status_text, view_text, x_text, xs_text, ys_text};
ghost use Rattle.beam_debug.specs.Seen.{frame_seen, frame_text, live_seen, next_seen, seen, location_seen, y_text};

use crate::view::{FrameView, LiveView, Location, Next, RowView, View};
use beam_erltext::print_atom;
use beam_image::Image;
use beam_lengths::write_parts;
use beam_machine::process::{Slot, Status};
use beam_machine::text_parts::TextParts;
use beam_model::function::Import;
use beam_model::instruction::{Instruction, Operands};
use beam_model::opcode::Opcode;
use beam_model::place::Place;
use beam_print::print::print_instruction;
use beam_term::{Atom, Term};
use itoa::Buffer;
use std::alloc::{AllocError, Global};

fn print_number(number: usize, out: &mut TextParts) -> Result<(), AllocError>
    ensures { OnOk result (out.new ≡ out.old ++ decimal number) }
{
    out.push_bytes(Buffer::new().format(number).as_bytes())
}

fn print_name(name: &Atom, out: &mut TextParts) -> Result<(), AllocError>
    ensures { OnOk result (out.new ≡ out.old ++ atom_text name.now) }
{
    let mut text = Vec::new(out.allocator());
    match print_atom(name.as_str(), &mut text) {
        Ok(()) => out.push_bytes(&text),
        Err(_) => Err(AllocError),
    }
}

fn print_line(instruction: &Instruction, out: &mut TextParts) -> Result<(), AllocError>
    ensures { OnOk result (out.new ≡ out.old ++ instruction_text instruction.now) }
{
    let mut text = Vec::new(out.allocator());
    match print_instruction(instruction, &mut text) {
        Ok(()) => out.push_bytes(&text),
        Err(_) => Err(AllocError),
    }
}

fn print_function(function: &Import, out: &mut TextParts) -> Result<(), AllocError>
    ensures { OnOk result (out.new ≡ out.old ++ function_text function.now) }
{
    print_name(&function.module, out)?;
    out.push_bytes(b":")?;
    print_name(&function.function, out)?;
    out.push_bytes(b"/")?;
    print_number(function.arity as usize, out)
}

fn print_function_if(function: &Option<Import>, out: &mut TextParts) -> Result<(), AllocError>
    ensures { OnOk result (out.new ≡ out.old ++ function_text_if function.now) }
{
    match function {
        Some(function) => print_function(function, out),
        None => Ok(()),
    }
}

fn print_location(location: &Location, out: &mut TextParts) -> Result<(), AllocError>
    ensures { OnOk result (out.new ≡ out.old ++ location_text (location_seen location.now)) }
{
    print_function_if(&location.function, out)?;
    out.push_bytes(b" label ")?;
    print_number(location.label as usize, out)?;
    out.push_bytes(b" + ")?;
    print_number(location.rows, out)?;
    out.push_bytes(b" instance ")?;
    print_number(location.instance as usize, out)
}

/// The instruction at a position of an image, and `int_code_end` after the last.
fn print_instruction_in(
    image: &Option<Image>,
    at: usize,
    out: &mut TextParts,
) -> Result<(), AllocError>
    ensures { OnOk result (out.new ≡ out.old ++ instruction_text (instruction_in image.now at)) }
{
    match image {
        Some(image) => {
            let instruction = image.fetch(Place::new(0, at)).read()?;
            print_line(&instruction, out)
        }
        None => {
            let alloc = out.allocator();
            let end = Instruction {
                opcode: Opcode::IntCodeEnd,
                operands: Operands::new(alloc, Vec::new(alloc))?,
            };
            print_line(&end, out)
        }
    }
}

fn print_next(next: &Next, out: &mut TextParts) -> Result<(), AllocError>
    ensures { OnOk result (out.new ≡ out.old ++ next_text (next_seen next.now)) }
{
    match next {
        Next::Row(
            RowView {
                location,
                image,
                at,
            },
        ) => {
            out.push_bytes(b"at ")?;
            print_location(location, out)?;
            out.push_bytes(b"\nnext ")?;
            print_instruction_in(image, *at, out)?;
            out.push_bytes(b"\n")
        }
        Next::Entry(function) => {
            out.push_bytes(b"at entry ")?;
            print_function(function, out)?;
            out.push_bytes(b"\n")
        }
        Next::Nothing => Ok(()),
    }
}

/// Appends how a process stands: held, or else waiting or running.
fn print_status(held: bool, status: &Status, out: &mut TextParts) -> Result<(), AllocError>
    ensures { OnOk result (out.new ≡ out.old ++ status_text held status.now) }
{
    if held {
        return out.push_bytes(b"held");
    }
    match status {
        Status::Running => out.push_bytes(b"running"),
        Status::Waiting => out.push_bytes(b"waiting"),
        Status::Ended { .. } => Ok(()),
    }
}

/// Appends the line of an x register, and none if its value is `[]`.
fn print_x(register: usize, value: &Term, out: &mut TextParts) -> Result<(), AllocError>
    ensures { OnOk result (out.new ≡ out.old ++ x_text register value.now) }
{
    if value.is_nil() {
        return Ok(());
    }
    out.push_bytes(b"x")?;
    print_number(register, out)?;
    out.push_bytes(b" = ")?;
    out.push_term(value)?;
    out.push_bytes(b"\n")
}

fn print_xs(values: &[Term], out: &mut TextParts) -> Result<(), AllocError>
    ensures { OnOk result (out.new ≡ out.old ++ xs_text 0 values.now) }
{
    let mut register = 0;
    let mut rest = values;
    while let Some((value, more)) = rest.split_first() {
        print_x(register, value, out)?;
        register += 1;
        rest = more;
    }
    Ok(())
}

fn print_slot(slot: &Slot, out: &mut TextParts) -> Result<(), AllocError>
    ensures { OnOk result (out.new ≡ out.old ++ slot_text slot.now) }
{
    match slot {
        Slot::Value(value) => out.push_term(value),
        Slot::Tag(tag) => {
            out.push_bytes(b"catch label ")?;
            print_number(tag.label as usize, out)
        }
    }
}

/// Appends the line of a y register.
fn print_y(register: usize, slot: &Slot, out: &mut TextParts) -> Result<(), AllocError>
    ensures { OnOk result (out.new ≡ out.old ++ y_text register slot.now) }
{
    out.push_bytes(b"y")?;
    print_number(register, out)?;
    out.push_bytes(b" = ")?;
    print_slot(slot, out)?;
    out.push_bytes(b"\n")
}

fn print_ys(slots: &[Slot], out: &mut TextParts) -> Result<(), AllocError>
    ensures { OnOk result (out.new ≡ out.old ++ ys_text 0 slots.now) }
{
    let mut register = 0;
    let mut rest = slots;
    while let Some((slot, more)) = rest.split_first() {
        print_y(register, slot, out)?;
        register += 1;
        rest = more;
    }
    Ok(())
}

fn print_back(back: &Option<Location>, out: &mut TextParts) -> Result<(), AllocError>
    ensures { OnOk result (out.new ≡ out.old ++ back_text (option_map location_seen back.now)) }
{
    match back {
        Some(location) => print_location(location, out),
        None => out.push_bytes(b"end"),
    }
}

fn print_frame(frame: &FrameView, out: &mut TextParts) -> Result<(), AllocError>
    ensures { OnOk result (out.new ≡ out.old ++ frame_text (frame_seen frame.now)) }
{
    out.push_bytes(b"frame return ")?;
    print_back(&frame.back, out)?;
    out.push_bytes(b"\n")?;
    print_ys(&frame.y, out)
}

fn print_frames(frames: &[FrameView], out: &mut TextParts) -> Result<(), AllocError>
    ensures { OnOk result (out.new ≡ out.old ++ frames_text (map frame_seen frames.now)) }
{
    let mut rest = frames;
    while let Some((frame, older)) = rest.split_first() {
        print_frame(frame, out)?;
        rest = older;
    }
    Ok(())
}

fn print_counts(view: &LiveView, out: &mut TextParts) -> Result<(), AllocError>
    ensures { OnOk result (out.new ≡ out.old ++ counts_text (live_seen view.now)) }
{
    out.push_bytes(b"mailbox ")?;
    print_number(view.messages, out)?;
    out.push_bytes(b" save ")?;
    print_number(view.save, out)?;
    out.push_bytes(b" transit ")?;
    print_number(view.transit, out)?;
    out.push_bytes(b"\n")
}

fn print_live(view: &LiveView, out: &mut TextParts) -> Result<(), AllocError>
    ensures { OnOk result (out.new ≡ out.old ++ live_text (live_seen view.now)) }
{
    out.push_bytes(b"pid ")?;
    print_number(view.pid as usize, out)?;
    out.push_bytes(b" ")?;
    print_status(view.held, &view.status, out)?;
    out.push_bytes(b"\n")?;
    print_next(&view.next, out)?;
    print_xs(&view.x, out)?;
    print_frames(&view.frames, out)?;
    print_counts(view, out)
}

/// Appends the text of a view.
fn print_view(view: &View, out: &mut TextParts) -> Result<(), AllocError>
    ensures { OnOk result (out.new ≡ out.old ++ view_text (seen view.now)) }
{
    match view {
        View::Live(view) => print_live(view, out),
        View::Over { pid, reason } => {
            out.push_bytes(b"pid ")?;
            print_number(*pid as usize, out)?;
            out.push_bytes(b" ended ")?;
            out.push_term(reason)?;
            out.push_bytes(b"\n")
        }
    }
}

impl View {
    /// The text of a view: the process's pid and how it stands, its next row with the instruction as a listing has it, its x registers that
    /// aren't `[]`, its frames from the newest with their y registers, and the counts of its mailbox. Of a process that has ended, the pid
    /// and the reason. Terms in it are shared.
    pub fn text(&self, alloc: Global) -> Result<TextParts, AllocError>
        ensures { IfOk result (λ text. text ≡ view_text (seen self.now)) }
    {
        let mut text = TextParts::new(alloc);
        print_view(self, &mut text)?;
        Ok(text)
    }

    /// Appends the text of a view, with its terms written out. Where memory is refused nothing is appended.
    pub fn print(&self, out: &mut Vec<u8>) -> Result<(), AllocError>
        ensures printed { OnOk result (out.new.items ≡ out.old.items ++ view_text (seen self.now)) }
        ensures err { OnErr result (out.new.items ≡ out.old.items) }
    {
        let alloc = *out.allocator();
        let mut text = Vec::new(alloc);
        write_parts(&self.text(alloc)?, &mut text)?;
        out.extend_from_slice(&text)
    }
}

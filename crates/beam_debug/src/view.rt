//! Views of a process.
ghost use Rattle.std.specs.Prelude.{◌≡◌, IfOk};
ghost use Rattle.beam_machine.specs.View.{view_text};
ghost use Rattle.beam_debug.specs.Seen.{seen};

use beam_image::Image;
use beam_machine::process::{Slot, Status};
use beam_machine::text_parts::TextParts;
use beam_model::function::Import;
use beam_term::Term;
use std::alloc::{AllocError, Global};
use std::marker::Model;

/// Where a row stands.
pub struct Location {
    /// The function whose head is the last one at the row or before it.
    pub function: Option<Import>,
    /// The last label before the row, and 0 if there is none.
    pub label: u32,
    /// How many rows are between the label and the row.
    pub rows: usize,
    /// The number of its instance.
    pub instance: u32,
}

impl Drop for Location {
    fn drop(self) {
        let Location {
            function: _function,
            label: _label,
            rows: _rows,
            instance: _instance,
        } = self;
    }
}

/// A row.
pub struct RowView {
    pub location: Location,
    /// The image of its instance.
    pub image: Option<Image>,
    /// Its position in the instance.
    pub at: usize,
}

impl Drop for RowView {
    fn drop(self) {
        let RowView {
            location: _location,
            image: _image,
            at: _at,
        } = self;
    }
}

/// What a process does next.
#[derive(Drop)]
pub enum Next {
    Row(RowView),
    /// Its first entry.
    Entry(Import),
    Nothing,
}

/// The view of a frame.
pub struct FrameView {
    /// Where the frame returns. The first frame of a process returns nowhere.
    pub back: Option<Location>,
    /// Its y registers, y0 first.
    pub y: Vec<Slot>,
}

impl Drop for FrameView {
    fn drop(self) {
        let FrameView { back: _back, y: _y } = self;
    }
}

/// The view of a process that hasn't ended.
pub struct LiveView {
    pub pid: u32,
    pub status: Status,
    /// Whether the debugger holds it.
    pub held: bool,
    pub next: Next,
    /// Its x registers as far as they were written, x0 first.
    pub x: Vec<Term>,
    /// Its frames, newest first.
    pub frames: Vec<FrameView>,
    /// How many messages its mailbox has.
    pub messages: usize,
    /// How many messages stand before the save pointer.
    pub save: usize,
    /// How many signals are in transit to it.
    pub transit: usize,
}

impl Drop for LiveView {
    fn drop(self) {
        let LiveView {
            pid: _pid,
            status: _status,
            held: _held,
            next: _next,
            x: _x,
            frames: _frames,
            messages: _messages,
            save: _save,
            transit: _transit,
        } = self;
    }
}

/// The view of a process.
#[derive(Drop)]
pub enum View {
    Live(LiveView),
    /// It has ended.
    Over { pid: u32, reason: Term },
}

/// The view of a process, with its text, in which terms are shared. Contracts see the view.
pub struct RenderedView {
    view: View,
    text: TextParts,
}

impl Drop for RenderedView {
    fn drop(self) {
        let RenderedView {
            view: _view,
            text: _text,
        } = self;
    }
}

impl Model for RenderedView {
    ghost use Rattle.std.specs.Prelude.{◌≡◌};
    ghost use Rattle.std.specs.Coded.{codes};
    ghost use Rattle.beam_term.specs.Coding.{term_code};
    ghost use Rattle.beam_machine.specs.View.{View as TheView, view_text};
    ghost use Rattle.beam_debug.specs.Seen.{seen};

    ghost Value = { TheView };

    ghost coded = { Prim.hlevel (codes, term_code) };

    ghost view = { λ s. seen s.view };

    ghost invariant = { λ s. s.text ≡ view_text (seen s.view) };
}

impl RenderedView {
    /// A view, and the text that is made of it.
    pub(crate) fn new(alloc: Global, view: View) -> Result<RenderedView, AllocError>
        ensures { IfOk result (λ shown. shown ≡ seen view) }
    {
        let text = view.text(alloc)?;
        Ok(RenderedView { view, text })
    }

    /// The text. It takes no memory.
    pub fn into_text(self) -> TextParts
        ensures { result ≡ view_text self }
    {
        let RenderedView { view: _view, text } = self;
        text
    }
}

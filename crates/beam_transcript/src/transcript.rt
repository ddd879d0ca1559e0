//! What a device read and wrote.
ghost use Rattle.std.specs.Prelude.{◌≡◌, ℕ, List};
ghost use base.Fml.{ftrue};
ghost use Rattle.beam_transcript.specs.SoFar.{SoFar};

use crate::note::Note;
use std::marker::Model;

/// All that a device read and wrote, and what had been read and written when each read began. No bytes at run time: only contracts see it.
#[derive(Drop)]
pub struct Transcript {
    pub ghost read: { List ℕ },
    pub ghost written: { List ℕ },
    pub ghost moments: { List SoFar },
}

impl Model for Transcript {
    ghost also_owns = { λ _. ftrue };
}

impl Transcript {
    ghost use Rattle.beam_transcript.specs.Noted.{empty, noted, after_read, after_write};

    /// Nothing was read or written.
    pub fn new() -> Transcript
        ensures { result ≡ empty }
    {
        Transcript {}
    }

    /// A read more, that gave these bytes.
    #[inline(always)]
    pub fn after_read(&self, bytes: &[u8]) -> Transcript
        ensures { result ≡ after_read self.now bytes.now }
    {
        self.after(&Note::Read(bytes))
    }

    /// A write more, that took these bytes.
    #[inline(always)]
    pub fn after_write(&self, bytes: &[u8]) -> Transcript
        ensures { result ≡ after_write self.now bytes.now }
    {
        self.after(&Note::Written(bytes))
    }

    #[inline(always)]
    fn after(&self, _note: &Note<'_>) -> Transcript
        ensures { result ≡ noted self.now _note.now }
    {
        Transcript {}
    }
}

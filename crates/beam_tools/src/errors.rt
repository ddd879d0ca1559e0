//! Where the programs write their messages about faults.
ghost use Rattle.std.specs.Prelude.{◌≡◌, ◌++◌, List, None, Option, ℕ};
ghost use Rattle.std.specs.Io.KnownBytes.{append_known};

use std::io::Write;

/// What messages about faults are written to.
pub trait Errors {
    // The bytes that were written, if the device reports them.
    ghost told: { Self → Option (List ℕ) } = { λ _. None };

    /// Writes a text. A failure isn't reported: the status of the program tells of the fault too.
    fn tell(&mut self, text: &[u8])
        ensures { told self.new ≡ append_known (told self.old) text.now };
}

impl<W: Write> Errors for W {
    fn tell(&mut self, text: &[u8]) {
        let _ = self.write_all(text);
    }
}

/// Writes two texts, one after the other.
pub fn tell_two<E: Errors>(first: &[u8], second: &[u8], errors: &mut E)
    ensures { E.told errors.new ≡ append_known (E.told errors.old) (first.now ++ second.now) }
{
    errors.tell(first);
    errors.tell(second);
}

/// Writes three texts, one after another.
pub fn tell_three<E: Errors>(first: &[u8], second: &[u8], third: &[u8], errors: &mut E)
    ensures { E.told errors.new ≡ append_known (E.told errors.old) (first.now ++ second.now ++ third.now) }
{
    errors.tell(first);
    errors.tell(second);
    errors.tell(third);
}

//! Laws of records, pages and files. The functions do nothing: their contracts are proved.
ghost use Rattle.std.specs.Prelude.{◌≡◌, ◌++◌, ◌∷◌, ℕ, List, [], false, length};
ghost use Rattle.byteorder.specs.Endian.{big_bytes};
ghost use Rattle.beam_blocks.specs.Blocks.{IsShort, block};
ghost use Rattle.beam_command_writer.specs.Bodies.{AreBytes, IsUnspelled};
ghost use Rattle.beam_machine.specs.Frames.{Command};
ghost use Rattle.beam_machine.specs.Journal.{SentEvent};
ghost use Rattle.beam_records.specs.Pieces.{loads_code};
ghost use Rattle.beam_records.specs.JournalFile.{IsEventOf, IsPage, IsRecord, Keeps, head_of};

/// Bytes are a record of one event and seat at most.
pub fn one_sending()
    ensures { (bytes : List ℕ) (s t : SentEvent) → IsRecord bytes s → IsRecord bytes t → s ≡ t }
{}

/// The record at the front of bytes is the only one there: where it ends and what it says are determined, whatever follows it.
pub fn one_record()
    ensures ends { (first rest second left : List ℕ) (s t : SentEvent) → IsRecord first s → IsRecord second t → first ++ rest ≡ second ++ left
        → first ≡ second }
    ensures says { (first rest second left : List ℕ) (s t : SentEvent) → IsRecord first s → IsRecord second t → first ++ rest ≡ second ++ left → s ≡ t }
{}

/// An event that loads no code has no record where no body spells its command. (A load may be spelled by other files than those that are
/// written for it.)
pub fn no_record()
    ensures { (bytes : List ℕ) (s : SentEvent) (c : Command) → AreBytes bytes → loads_code s.event ≡ false → IsEventOf c s.event → IsUnspelled c
        → IsRecord bytes s → ⊥ }
{}

/// A file keeps one list of events and seats at most.
pub fn one_list()
    ensures { (file : List ℕ) (ss ts : List SentEvent) → Keeps file ss → Keeps file ts → ss ≡ ts }
{}

/// A page without a record, and one with a record more after its others.
pub fn pages_grow()
    ensures empty { (number : ℕ) → IsPage number (big_bytes 8 number) [] }
    ensures more { (number : ℕ) (page : List ℕ) (ss : List SentEvent) (bytes : List ℕ) (s : SentEvent) → IsPage number page ss → IsRecord bytes s
        → IsPage number (page ++ bytes) (ss ++ s ∷ []) }
{}

/// A new file keeps nothing, and one with a page more, which goes on at the next entry, also keeps the events of that page.
pub fn files_grow()
    ensures empty { (id : List ℕ) → length id ≡ 16 → Keeps (block (head_of id)) [] }
    ensures more { (file : List ℕ) (ss : List SentEvent) (page : List ℕ) (ts : List SentEvent) → Keeps file ss → IsPage (length ss) page ts → IsShort page
        → Keeps (file ++ block page) (ss ++ ts) }
{}

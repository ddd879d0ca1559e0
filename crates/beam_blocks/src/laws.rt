//! Laws of blocks. The functions do nothing: their contracts are proved.
ghost use Rattle.std.specs.Prelude.{◌≡◌, ◌≢◌, ◌<◌, ◌↔◌, ◌++◌, ℕ, List, get_or, length, set, take};
ghost use Rattle.beam_blocks.specs.Blocks.{AreBytes, AreShort, IsBeginning, IsShort, at_bad_block, bad_block, between_blocks, block, block_in, blocks_in, blocks_of, cut_block, inside_block, no_blocks, no_bytes, one_block, with_content, with_contents};

/// What was written is read, whatever bytes follow it.
#[tactic(auto, using(crate::proofs::RoundTrip::written_again))]
pub fn written_is_read()
    ensures { (contents : List (List ℕ)) (more : List ℕ) → AreShort contents → blocks_in (blocks_of contents ++ more) ≡ with_contents contents (blocks_in more) }
{}

/// What is read stands there: a block is found exactly where one stands, and a file is the blocks that are read and what is left of it.
#[tactic(auto, using(crate::proofs::Stands::blocks_stand))]
pub fn read_stands()
    ensures one { (bytes content rest : List ℕ) → AreBytes bytes → (block_in bytes ≡ one_block content rest) ↔ (IsShort content × (bytes ≡ block content ++ rest)) }
    ensures all { (bytes : List ℕ) → AreBytes bytes → bytes ≡ blocks_of (blocks_in bytes).contents ++ (blocks_in bytes).rest }
{}

/// The first bytes of a file say what its first block is, once they have a whole one or a bad one, whatever more bytes follow.
#[tactic(auto, using(crate::proofs::MoreBytes::none_found, crate::proofs::MoreBytes::cut_found, crate::proofs::MoreBytes::bad_found, crate::proofs::MoreBytes::one_found))]
pub fn found_first()
    ensures none { (bytes : List ℕ) → block_in bytes ≡ no_bytes → blocks_in bytes ≡ no_blocks bytes between_blocks }
    ensures cut { (bytes : List ℕ) → block_in bytes ≡ cut_block → blocks_in bytes ≡ no_blocks bytes inside_block }
    ensures bad { (bytes more : List ℕ) → block_in bytes ≡ bad_block → blocks_in (bytes ++ more) ≡ no_blocks (bytes ++ more) at_bad_block }
    ensures one { (bytes more content rest : List ℕ) → block_in bytes ≡ one_block content rest
        → blocks_in (bytes ++ more) ≡ with_content content (blocks_in (rest ++ more)) }
{}

/// The first n bytes of what was written are read as the first of its blocks, and no bad block is found.
#[tactic(auto, using(crate::proofs::Cuts::cut_again))]
pub fn cut_is_a_beginning()
    ensures { (contents : List (List ℕ)) (n : ℕ) → AreShort contents → IsBeginning contents (blocks_in (take n (blocks_of contents))) }
{}

/// Blocks that were synced are found, whatever bytes a power cut left after them.
#[tactic(auto, using(crate::proofs::RoundTrip::synced_again))]
pub fn synced_stands()
    ensures { (synced : List (List ℕ)) (more : List ℕ) → AreShort synced → (others : List (List ℕ)) × ((blocks_in (blocks_of synced ++ more)).contents ≡ synced ++ others) }
{}

/// A block of which one byte is another is a bad block, whatever bytes follow it.
#[tactic(auto, using(crate::proofs::ChangedBytes::changed_again))]
pub fn changed_byte_is_found()
    ensures { (content more : List ℕ) (at byte : ℕ) → IsShort content → AreBytes content → at < length (block content) → byte < 256
        → byte ≢ get_or (block content) at 0 → block_in (set (block content) at byte ++ more) ≡ bad_block }
{}

//! Characters of a text, counted by blocks of 256 bytes.
ghost use Rattle.std.specs.Prelude.{◌≡◌, ◌≤◌, count_by, length, take, IfOk};
ghost use Rattle.diag_core.specs.Position.{begins_character as begins};
ghost use Rattle.diag_core.specs.Blocks.{CountsBlocks};

use std::alloc::{AllocError, Global};

/// Whether the byte begins a character.
pub(crate) fn begins_character(byte: u8) -> bool
    ensures { result ≡ begins byte }
{
    byte < 0x80 || byte >= 0xc0
}

/// How many characters begin in the bytes: where all are ASCII, one in each.
pub(crate) fn character_count(bytes: &[u8]) -> usize
    ensures { result ≡ count_by begins bytes.now }
{
    if bytes.is_ascii() {
        return bytes.len();
    }
    bytes.iter().filter(|byte| begins_character(**byte)).count()
}

/// How many characters are before each block of a text.
pub(crate) fn count_blocks(alloc: Global, text: &[u8]) -> Result<Vec<usize>, AllocError>
    ensures { IfOk result (λ counts. CountsBlocks text.now counts.items) }
{
    let mut counts = Vec::new(alloc);
    let mut count = 0;
    counts.push(count)?;
    'counted: for block in text.as_chunks::<256>().0 {
        count += character_count(block);
        counts.push(count)?;
    }
    Ok(counts)
}

/// How many characters are before a place, by the counts of the blocks before it.
pub(crate) fn characters_before(counts: &[usize], text: &[u8], place: usize) -> usize
    requires counted { CountsBlocks text.now counts.now }
    requires within { place ≤ length text.now }
    ensures { result ≡ count_by begins (take place text.now) }
{
    let block = place / 256;
    counts[block] + character_count(&text[block * 256..place])
}

// What kind of line a line is.
ghost use Rattle.frames.specs.Kinds.{Kinded};

use crate::fields;

// A refused line, with its number; frames of version 1 and 2, whose parts are all there.
#[derive(Clone, Copy)]
pub enum Kind {
    Stated(u8),
    Plain,
    Sparse,
}

// The byte that version 2 opens with.
const OPENING: u8 = 0xA2;

// The largest number that a refused line states, and the one that was struck.
const MOST_NUMBER: u8 = 16;

const STRUCK: u8 = 6;

// The bytes before the digits of version 1, and before the entries of version 2; the bytes of an entry.
const PLAIN_HEAD: usize = 5;

const SPARSE_HEAD: usize = 7;

const ENTRY: usize = 3;

// The kind, of a line that is not malformed.
pub fn kind_of(line: &[u8]) -> Option<Kind>
    ensures { Kinded line.now result }
{
    if line.is_empty() || line.len() % 2 == 1 || !hexadecimal::all_hex(line) {
        return None;
    }
    match (line.len() / 2, fields::byte_at(line, 0)) {
        (1, first @ 1..=MOST_NUMBER) if first != STRUCK => Some(Kind::Stated(first)),
        (n, OPENING) if n >= SPARSE_HEAD && (n - SPARSE_HEAD) % ENTRY == 0 => Some(Kind::Sparse),
        (n, 0) if n >= PLAIN_HEAD => Some(Kind::Plain),
        _ => None,
    }
}

// The tests of a value's size and of the rooms: whether a value is within its size (number 13 otherwise), and whether an entry of the
// trail, and the table, fit theirs (number 14 otherwise). They ask sizes alone.
// Computes: Values, Sheet
#![tactic(auto)]

ghost use Rattle.sheet_sizes.specs.Clauses.{WithinIs, Small, EntryFitsIs, TableFitsIs};

use codes::limits;
use text_chars::{RecLen, TextLen};

/// Bytes of records and bytes of text: what a room has, or what is used of it.
#[derive(Clone, Copy)]
pub struct Sizes {
    pub rec: RecLen,
    pub text: TextLen,
}

/// The three bytes of an entry before its answer.
pub const ENTRY: usize = 3;

/// Whether a value that is nested so deep and has so many bytes is within its size.
pub fn within_size(deep: usize, size: Sizes) -> bool
    ensures { WithinIs deep size result }
{
    let rec = size.rec;
    let text = size.text;
    if limits::NESTING < deep {
        return false;
    }
    if limits::RECORDS < rec.0 {
        return false;
    }
    text.0 <= limits::TEXT
}

/// Whether one entry more fits: its answer has so many bytes (of records none where it is undefined).
pub fn entry_fits(room: Sizes, used: Sizes, size: Sizes) -> bool
    requires { Small used × Small size }
    ensures { EntryFitsIs room used size result }
{
    let trail = room.rec;
    let text = room.text;
    let rec = used.rec;
    let texts = used.text;
    let more = size.rec;
    let word = size.text;
    if trail.0 < rec.0 + ENTRY + more.0 {
        return false;
    }
    texts.0 + word.0 <= text.0
}

/// Whether the table fits its room, and its texts what is left of the text part.
pub fn table_fits(room: Sizes, texts: TextLen, size: Sizes) -> bool
    requires { Small size × Small (record { rec = size.rec; text = texts }) }
    ensures { TableFitsIs room texts.0 size result }
{
    let table = room.rec;
    let text = room.text;
    let rec = size.rec;
    let word = size.text;
    if table.0 < rec.0 {
        return false;
    }
    texts.0 + word.0 <= text.0
}

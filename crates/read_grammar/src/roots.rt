// Decisions about a document's root: what it is, by what stands behind the gap at the start; and what may stand behind it.
//
// Computes: Reading (root_at, read_root).
ghost use Rattle.std.specs.Prelude.{◌≤◌, length};
ghost use Rattle.rules.specs.Sizes.{max_document};
ghost use Rattle.read_grammar.specs.Roots.Contracts.{OpeningIs, EndingIs};

use crate::Start;
use codes::{bytes, refusals};
use text_chars::{Cursor, Refusal};

/// What the root is, with the cursor where its members begin.
#[derive(Clone, Copy)]
pub enum Opening {
    /// An object up to its closing byte, which is `NONE` where it has no braces.
    Object { next: Cursor, closing: u32 },
    /// An array.
    Array(Cursor),
}

/// The root of a document.
pub fn opening_of(s: &[u8]) -> Opening
    requires { length s.now ≤ max_document }
    ensures { OpeningIs s.now result }
{
    let gap = text_scan::gap_at(s, Cursor::start());
    let c = gap.next;
    let bare = Opening::Object {
        next: c,
        closing: bytes::NONE,
    };
    match crate::start_of(s, c) {
        Start::Brace(next) => Opening::Object {
            next,
            closing: bytes::CLOSE_BRACE,
        },
        Start::Bracket(next) => Opening::Array(next),
        Start::Dollar => bare,
        Start::Scalar => bare,
        Start::Nothing => bare,
    }
}

/// The end of the document, which stands behind the root and a gap; any other byte is refused.
pub fn ending_of(s: &[u8], c: Cursor) -> Result<Cursor, Refusal>
    requires { (length s.now ≤ max_document) × (c.at.0 ≤ length s.now) }
    ensures { EndingIs s.now c.at.0 result }
{
    let gap = text_scan::gap_at(s, c);
    let last = gap.next;
    let end = last.at;
    if end.0 < s.len() {
        return Err(Refusal {
            number: refusals::BYTE_NOT_ALLOWED,
            place: end,
        });
    }
    Ok(last)
}

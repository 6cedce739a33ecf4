// The limits on items and nesting while a document is read: what begins at a place of a value, and how many elements a key may have.
// Computes: Reading (`start_of`, `count_item`, `opened`, `allowed_keys`)
ghost use Rattle.std.specs.Prelude.{◌≤◌, length};
ghost use Rattle.rules.specs.Sizes.{max_document, max_items};
ghost use Rattle.read_grammar.specs.Limits.Limits.{nesting_in_root, AllowedIs, StartsIs, PieceStartIs, ExcessNumberIs};

use crate::Start;
use codes::{limits, refusals};
use text_chars::{Cursor, Refusal};

/// How many elements a key may have: each is an item, and each after the first opens a nesting.
pub fn allowed_keys(left: usize, items: usize) -> usize
    requires { (left ≤ nesting_in_root) × (items ≤ max_items) }
    ensures { AllowedIs left items result }
{
    let rest = doc_items::MAX_ITEMS - items;
    let deep = left + 1;
    if rest < deep {
        if rest < limits::PATH {
            return rest;
        }
        return limits::PATH;
    }
    if deep < limits::PATH {
        return deep;
    }
    limits::PATH
}

// Whether a piece begins at a place of a value.
fn starts_piece(s: &[u8], c: Cursor) -> bool
    requires { (length s.now ≤ max_document) × (c.at.0 ≤ length s.now) }
    ensures { StartsIs s.now c.at.0 result }
{
    match crate::start_of(s, c) {
        Start::Nothing => false,
        Start::Dollar => true,
        Start::Scalar => true,
        Start::Brace(_) => true,
        Start::Bracket(_) => true,
    }
}

/// What begins at a place of a value.
#[derive(Clone, Copy)]
pub enum Beginning {
    /// an object, and the cursor past its `{`
    Object(Cursor),
    /// an array, and the cursor past its `[`
    Array(Cursor),
    /// a substitution
    Reference,
    /// a simple piece
    Scalar,
    /// no piece
    Nothing,
}

/// What begins at a place of a value; refused is a piece that would be an item or a nesting too many.
pub fn piece_start(s: &[u8], c: Cursor, left: usize, items: usize) -> Result<Beginning, Refusal>
    requires { (length s.now ≤ max_document) × (c.at.0 ≤ length s.now) × (left ≤ nesting_in_root) × (items ≤ max_items) }
    ensures { PieceStartIs s.now c.at.0 left items result }
{
    let over = Refusal {
        number: refusals::OVER_LIMIT,
        place: c.at,
    };
    let deepest = left == 0;
    if items == doc_items::MAX_ITEMS {
        if starts_piece(s, c) {
            return Err(over);
        }
        return Ok(Beginning::Nothing);
    }
    match crate::start_of(s, c) {
        Start::Nothing => Ok(Beginning::Nothing),
        Start::Dollar => Ok(Beginning::Reference),
        Start::Scalar => Ok(Beginning::Scalar),
        Start::Brace(next) => {
            if deepest {
                return Err(over);
            }
            Ok(Beginning::Object(next))
        }
        Start::Bracket(next) => {
            if deepest {
                return Err(over);
            }
            Ok(Beginning::Array(next))
        }
    }
}

/// The number of an element where there may be no further item: it is counted only if a piece begins.
pub fn excess_number(s: &[u8], c: Cursor) -> u8
    requires { (length s.now ≤ max_document) × (c.at.0 ≤ length s.now) }
    ensures { ExcessNumberIs s.now c.at.0 result }
{
    if starts_piece(s, c) {
        return refusals::OVER_LIMIT;
    }
    crate::not_allowed(s, c)
}

// The pieces of a value by their numbers: what a piece makes of a value, and a value at its end. Nothing is written here.
// Computes: Reading (`parted`, `judge_value`)
ghost use Rattle.std.specs.Prelude.{◌≡◌, ◌≤◌, length};
ghost use Rattle.rules.specs.Sizes.{max_document};
ghost use Rattle.doc_items.specs.Codes.{reference_code};
ghost use Rattle.read_values.specs.Pieces.Pieces.{AfterMemberIs, FinishValueAsked, FinishIs, ContainerPieceIs, AddPieceAsked, AddPieceIs};

use crate::{Outcome, Run};
use codes::refusals;
use doc_items::{OPTIONAL, REQUIRED, STRING};
use text_chars::{Cursor, DocAt, Refusal, TextAt, TextLen};

/// Where a reading got to: the cursor there, and how many items there are then.
#[derive(Clone, Copy)]
pub struct Listed {
    pub next: Cursor,
    pub items: usize,
}

/// A value that was read: the cursor past it, how many items there are then, the kind of its item, and its text if it is a simple one.
#[derive(Clone, Copy)]
pub struct Valued {
    pub next: Cursor,
    pub items: usize,
    pub kind: usize,
    pub text: TextAt,
    pub size: TextLen,
}

/// A piece that was read: the cursor past it, how many items there are then, and the numbers of its own item.
#[derive(Clone, Copy)]
pub struct PieceItem {
    pub next: Cursor,
    pub items: usize,
    pub kind: usize,
    pub text: TextAt,
    pub size: TextLen,
    pub number: usize,
}

/// A value with one piece more: the cursor past the piece, how many items there are then, the pieces so far, and how far the text part is
/// used.
#[derive(Clone, Copy)]
pub struct ValueStep {
    pub next: Cursor,
    pub items: usize,
    pub run: Run,
    pub used: TextAt,
}

/// Behind a member: where the next one or the closing byte may stand.
pub fn after_member(s: &[u8], c: Cursor, items: usize, closing: u32) -> Result<Listed, Refusal>
    requires { (length s.now ≤ max_document) × (c.at.0 ≤ length s.now) }
    ensures { AfterMemberIs closing s.now c.at.0 items result }
{
    let next = read_grammar::parted(s, c, closing)?;
    Ok(Listed { next, items })
}

/// The end of a value, where no further piece begins.
pub fn finish_value(
    s: &[u8],
    c: Cursor,
    run: Run,
    items: usize,
    start: TextAt,
    used: TextAt,
) -> Result<Valued, Refusal>
    requires { FinishValueAsked s.now c.at.0 start.0 used.0 }
    ensures { FinishIs s.now c.at.0 run items start.0 used.0 result }
{
    let place = c.at;
    match crate::judge(run) {
        Outcome::Nothing => Err(Refusal {
            number: read_grammar::not_allowed(s, c),
            place,
        }),
        Outcome::Mixed { place: odd } => Err(Refusal {
            number: refusals::MIXED_KINDS,
            place: odd,
        }),
        Outcome::Value { kind, simple } => {
            if simple {
                return Ok(Valued {
                    next: c,
                    items,
                    kind,
                    text: start,
                    size: TextLen(used.0 - start.0),
                });
            }
            Ok(Valued {
                next: c,
                items,
                kind,
                text: TextAt(0),
                size: TextLen(0),
            })
        }
    }
}

/// The kind of a substitution's item.
pub fn reference_kind(optional: bool) -> usize
    ensures { result ≡ reference_code optional }
{
    if optional { OPTIONAL } else { REQUIRED }
}

/// An array or an object that is a piece.
pub fn container_piece(
    r: Result<Listed, Refusal>,
    kind: usize,
) -> Result<Option<PieceItem>, Refusal>
    ensures { ContainerPieceIs r kind result }
{
    let Listed { next, items } = r?;
    Ok(Some(PieceItem {
        next,
        items,
        kind,
        text: TextAt(0),
        size: TextLen(0),
        number: 0,
    }))
}

/// A value with a piece more. The text of a further simple piece goes behind that of a simple one; any other's begins at its own place.
pub fn add_piece(run: Run, place: DocAt, f: PieceItem) -> ValueStep
    requires { AddPieceAsked run f }
    ensures { AddPieceIs run place.0 f result }
{
    let kind = f.kind;
    let used = if kind <= STRING {
        f.text.0 + f.size.0
    } else {
        2 * f.next.at.0
    };
    ValueStep {
        next: f.next,
        items: f.items,
        run: crate::add(run, kind, place),
        used: TextAt(used),
    }
}

// What the pieces of an unresolved value need, from one on: looked for with no join between them.
// Computes: the first missing answer of the pieces, as answers' fate
#![tactic(auto)]

ghost use Rattle.std.specs.Prelude.{◌<◌};
ghost use Rattle.doc_items.specs.Room.{capacity};
ghost use Rattle.eval_question_laws.specs.Clauses.{Asked};
ghost use Rattle.eval_unresolved.specs.Single.Contracts.{PieceAsked};
ghost use Rattle.eval_ahead.specs.Clauses.{FirstIs, FinishedAsked, FinishedIs, LackIs, MissedAsked, MissedIs, AheadIs};

use doc_items::CAPACITY;
use eval_pieces::cursor::{next_piece, pieces_end};
use eval_pieces::{Piece, piece_of};
use eval_results::values::Worked;
use eval_stack::code_at;
use eval_unresolved::single::value_of;

/// What the pieces miss: the question, and the item of the piece that misses it.
#[derive(Clone, Copy)]
pub struct Awaited {
    pub question: usize,
    pub piece: usize,
}

/// The piece from which an unresolved value is looked at: its first. Where there are two at most, it is evaluated as it stands, and this is the end of
/// the pieces: to look first would be dearer.
pub fn first_piece(table: &[u16], item: usize) -> usize
    requires { item < capacity }
    ensures { FirstIs table.now item result }
{
    let end = pieces_end(table, item);
    let first = item + 1;
    if end <= first {
        return first;
    }
    let second = next_piece(table, first, end);
    if end <= second {
        return second;
    }
    let third = next_piece(table, second, end);
    if end <= third {
        return third;
    }
    first
}

// Whether a piece is one finished value: nothing is missing in it, and it need not be written to know that.
fn is_finished(work: &[u16], piece: Piece) -> bool
    requires { FinishedAsked piece }
    ensures { FinishedIs work.now piece result }
{
    match piece {
        Piece::One { top, layer } => CAPACITY <= layer,
        Piece::Merged { lo, hi } => {
            if hi == lo + 1 {
                return CAPACITY <= code_at(work, lo);
            }
            false
        }
        Piece::Text { start, size } => false,
        Piece::Undefined => false,
        Piece::Needs(b) => false,
        Piece::Missing(place) => false,
    }
}

// The question that a piece misses; whatever else it comes to, nothing is missing.
fn lack_of(
    table: &[u16],
    bytes: &[u8],
    env: &[u8],
    work: &mut [u16],
    base: usize,
    room: &mut [u8],
    piece: Piece,
) -> Option<usize>
    requires { PieceAsked bytes.now env.now work.old base room.old piece }
    ensures { LackIs table.now bytes.now env.now base piece work.old work.new
        room.new result }
{
    match value_of(table, bytes, env, work, base, room, piece) {
        Ok(Worked::Needs(b)) => Some(b),
        Ok(Worked::Done(e)) => None,
        Ok(Worked::Undefined) => None,
        Err(x) => None,
    }
}

// The piece at item i alone.
fn missed(
    table: &[u16],
    bytes: &[u8],
    env: &[u8],
    work: &mut [u16],
    base: usize,
    room: &mut [u8],
    item: usize,
    i: usize,
) -> Option<usize>
    requires { MissedAsked bytes.now env.now work.old room.old base item i }
    ensures { MissedIs table.now bytes.now env.now base item i work.old work.new
        room.new result }
{
    let piece = piece_of(table, bytes, env, work, base, item, i);
    if is_finished(work, piece) {
        return None;
    }
    lack_of(table, bytes, env, work, base, room, piece)
}

/// What the pieces of the unresolved value at an item miss, from the piece at an item on. The stack is free from base on.
pub fn ahead(
    table: &[u16],
    bytes: &[u8],
    env: &[u8],
    work: &mut [u16],
    base: usize,
    room: &mut [u8],
    item: usize,
    from: usize,
) -> Option<Awaited>
    requires { Asked bytes.now env.now work.old room.old base item }
    ensures { AheadIs table.now bytes.now env.now base item from work.old work.new
        room.new result }
{
    let end = pieces_end(table, item);
    let mut i = from;
    while i < end {
        if let Some(question) = missed(table, bytes, env, work, base, room, item, i) {
            return Some(Awaited { question, piece: i });
        }
        i = next_piece(table, i, end);
    }
    None
}

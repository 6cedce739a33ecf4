// The pieces of an unresolved value joined, left to right: "each worked out, then its size tested (13), its kind against the first defined one
// (11), and the size of the join so far (13)". The join stands in the room for one value; a simple piece's text and an array's members are
// written behind it, in modules of their own (text, array), by what specs/Clauses says.
// Computes: Unresolved (join_piece, join_answer)
#![tactic(auto)]

pub mod array;
pub mod scalar;
pub mod steps;
pub mod text;

ghost use Rattle.std.specs.Prelude.{◌≡◌, ◌<◌};
ghost use Rattle.doc_items.specs.Room.{number_bound};
ghost use Rattle.eval_writer.specs.Clauses.{Room};
ghost use Rattle.eval_concat.specs.Model.{too_large_c, mixed_at, tested_c, start_of};
ghost use Rattle.eval_concat.specs.Answers.{AnswerIs};
ghost use Rattle.eval_concat.specs.Objects.{ObjectIs};

use codes::{kinds, refusals};
use doc_items::{COLUMN_PLACE, WIDTH, number_at};
use eval_results::extents::{Extent, length_inside};
use eval_results::sizes::{Answered, is_within};
use eval_writer::{Out, put_head, put_record};
use sheet_forms::HEAD;
use text_chars::{DocAt, RecAt, Refusal, TextAt};

/// What the pieces so far have come to.
#[derive(Clone, Copy)]
pub enum Kind {
    // nothing defined: the room has the whitespace between them
    Blank,
    // a text
    Simple,
    // so many elements, behind the room for a head
    Array { count: usize },
    // a whole object
    Object,
}

/// The join so far.
#[derive(Clone, Copy)]
pub struct Join {
    pub kind: Kind,
    pub extent: Extent,
}

// ---- decisions

/// The piece or the join is over its size.
pub fn too_large() -> Refusal
    ensures { result ≡ too_large_c }
{
    Refusal {
        number: refusals::TOO_LARGE,
        place: DocAt(0),
    }
}

/// The piece at item i is unlike the first defined one.
pub fn mixed(table: &[u16], i: usize) -> Refusal
    requires { i < number_bound }
    ensures { result ≡ mixed_at table.now i }
{
    Refusal {
        number: refusals::MIXED_KINDS,
        place: DocAt(number_at(table, WIDTH * i + COLUMN_PLACE)),
    }
}

/// The size of the join so far.
pub fn tested(j: Join) -> Result<Join, Refusal>
    ensures { result ≡ tested_c j }
{
    if is_within(j.extent) {
        return Ok(j);
    }
    Err(too_large())
}

// ---- arrays

/// Where the elements of an array are written: behind those of the join, or behind the room for a head.
pub fn array_start(j: Join) -> Out
    ensures { result ≡ start_of j }
{
    let first = Out {
        rec: RecAt(HEAD),
        text: TextAt(0),
    };
    match j.kind {
        Kind::Array { count } => j.extent.out,
        Kind::Blank => first,
        Kind::Simple => first,
        Kind::Object => first,
    }
}

// ---- objects

/// An object that was written into the room: its size, then its kind. None where the join is an object too: the two merge.
pub fn join_object(table: &[u16], j: Join, piece: Extent, i: usize) -> Result<Option<Join>, Refusal>
    requires { i < number_bound }
    ensures { ObjectIs table.now i j piece result }
{
    if !is_within(piece) {
        return Err(too_large());
    }
    match j.kind {
        Kind::Simple => Err(mixed(table, i)),
        Kind::Array { count } => Err(mixed(table, i)),
        Kind::Blank => Ok(Some(Join {
            kind: Kind::Object,
            extent: piece,
        })),
        Kind::Object => Ok(None),
    }
}

// ---- the end

/// All pieces are joined: a string's record and an array's head are written now.
pub fn join_answer(room: &mut [u8], j: Join) -> Answered
    requires { Room room.old }
    ensures { AnswerIs j room.old room.new result }
{
    let b = j.extent;
    match j.kind {
        Kind::Blank => Answered::Undefined,
        Kind::Object => Answered::Value(b),
        Kind::Array { count } => {
            let first = Out {
                rec: RecAt(0),
                text: TextAt(0),
            };
            put_head(room, RecAt(0), kinds::ARRAY, length_inside(first, b.out));
            Answered::Value(b)
        }
        Kind::Simple => {
            put_record(room, RecAt(0), kinds::STRING, 0, b.out.text.0);
            Answered::Value(b)
        }
    }
}

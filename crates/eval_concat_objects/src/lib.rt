// An object piece joined: objects on the stack are merged into the room and joined with what stood there. Writing the piece overwrites the
// room, so a join that is an object is kept before, as the first of the pair that merges.
// Computes: Unresolved (join_piece)
#![tactic(auto)]

pub mod pair;

ghost use Rattle.std.specs.Prelude.{◌≤◌};
ghost use Rattle.eval_stack.specs.Model.{entries};
ghost use Rattle.eval_pieces.specs.Clauses.{MergedOf};
ghost use Rattle.eval_concat.specs.Steps.Contracts.{JoinAsked, JoinStepIs};
ghost use Rattle.eval_concat_objects.specs.Clauses.{KeepAsked, KeptIs, OverAsked, OverIs, PieceAsked, PieceJoinedIs, WorkedJoinedIs};

use crate::pair::merge;
use eval_concat::steps::JoinStep;
use eval_concat::{Join, Kind, join_object, tested, too_large};
use eval_results::extents::Extent;
use eval_results::values::Worked;
use eval_state::keep_pair;
use eval_values::LEVELS;
use eval_values::objects::object_value;
use eval_writer::{Out, Source};
use text_chars::{RecAt, Refusal, TextAt};

// Keeps a join that is an object.
fn keep_join(bytes: &mut [u8], room: &[u8], j: Join)
    requires { KeepAsked bytes.old room.now j }
    ensures { KeptIs room.now j bytes.old bytes.new }
{
    match j.kind {
        Kind::Object => keep_pair(bytes, room, j.extent.out, false),
        Kind::Blank => {}
        Kind::Simple => {}
        Kind::Array { count } => {}
    }
}

// The piece in the room over the join that was kept, and the size of both merged.
fn join_over(
    table: &[u16],
    bytes: &mut [u8],
    work: &mut [u16],
    base: usize,
    room: &mut [u8],
    piece: Extent,
) -> Result<Join, Refusal>
    requires { OverAsked bytes.old work.old base room.old piece }
    ensures { OverIs table.now base piece work.old work.new bytes.old bytes.new room.old room.new result }
{
    keep_pair(bytes, room, piece.out, true);
    let merged = merge(table, bytes, work, base, room);
    tested(Join {
        kind: Kind::Object,
        extent: merged,
    })
}

// The piece in the room joined.
fn join_written(
    table: &[u16],
    bytes: &mut [u8],
    work: &mut [u16],
    base: usize,
    room: &mut [u8],
    j: Join,
    piece: Extent,
    i: usize,
) -> Result<Join, Refusal>
    requires { PieceAsked bytes.old work.old room.old base i }
    ensures { PieceJoinedIs table.now base i j piece work.old work.new bytes.old bytes.new
        room.old room.new result }
{
    match join_object(table, j, piece, i)? {
        Some(k) => Ok(k),
        None => join_over(table, bytes, work, base, room, piece),
    }
}

// What the objects came to joined, the join being kept.
fn join_worked(
    table: &[u16],
    bytes: &mut [u8],
    work: &mut [u16],
    base: usize,
    room: &mut [u8],
    j: Join,
    worked: Worked,
    i: usize,
) -> Result<JoinStep, Refusal>
    requires { PieceAsked bytes.old work.old room.old base i }
    ensures { WorkedJoinedIs table.now base i j worked work.old work.new bytes.old bytes.new room.old room.new result }
{
    match worked {
        Worked::Needs(b) => Ok(JoinStep::Needs(b)),
        // merged objects are never undefined
        Worked::Undefined => Err(too_large()),
        Worked::Done(piece) => {
            let joined = join_written(table, bytes, work, base, room, j, piece, i)?;
            Ok(JoinStep::So(joined))
        }
    }
}

/// The objects from lo to hi on the stack, merged, joined as the piece at item i. The stack is free from base on but for them.
pub fn join_objects(
    table: &[u16],
    bytes: &mut [u8],
    work: &mut [u16],
    base: usize,
    room: &mut [u8],
    lo: usize,
    hi: usize,
    j: Join,
    i: usize,
) -> Result<JoinStep, Refusal>
    requires { JoinAsked bytes.old work.old room.old base i j × (base ≤ lo) × (lo ≤ hi) × (hi ≤ entries) }
    ensures { JoinStepIs table.now base i j (λ M known g. MergedOf M known work.old lo hi g) work.old work.new bytes.old bytes.new room.old room.new result }
{
    keep_join(bytes, room, j);
    let answers = Source {
        rec: RecAt(doc_items::TRAIL),
        text: TextAt(doc_items::SHEET),
    };
    let start = Out {
        rec: RecAt(0),
        text: TextAt(0),
    };
    let worked = object_value(table, bytes, work, room, answers, lo, hi, start, LEVELS);
    join_worked(table, bytes, work, base, room, j, worked, i)
}

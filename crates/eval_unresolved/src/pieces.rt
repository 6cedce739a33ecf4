// All pieces of an unresolved value, joined: "pieces left to right".
// Computes: Unresolved (several)
ghost use Rattle.eval_question_laws.specs.Clauses.{Asked};
ghost use Rattle.eval_unresolved.specs.Pieces.Contracts.{NextAsked, JoinNextIs, PiecesJoinedIs};

use crate::join::join_piece;
use eval_concat::steps::JoinStep;
use eval_concat::{Join, Kind};
use eval_pieces::cursor::{next_piece, pieces_end};
use eval_pieces::piece_of;
use eval_results::extents::Extent;
use eval_writer::Out;
use text_chars::{RecAt, Refusal, TextAt};

// The piece at item i, joined to those before it.
fn join_next(
    table: &[u16],
    bytes: &mut [u8],
    env: &[u8],
    work: &mut [u16],
    base: usize,
    room: &mut [u8],
    item: usize,
    i: usize,
    j: Join,
) -> Result<JoinStep, Refusal>
    requires { NextAsked bytes.old env.now work.old room.old base item i j }
    ensures { JoinNextIs table.now env.now base item i j work.old work.new
        bytes.old bytes.new room.old room.new result }
{
    let piece = piece_of(table, bytes, env, work, base, item, i);
    join_piece(table, bytes, env, work, base, room, piece, j, i)
}

/// All pieces of the unresolved value at an item, joined in the room. The stack is free from base on.
pub fn join_pieces(
    table: &[u16],
    bytes: &mut [u8],
    env: &[u8],
    work: &mut [u16],
    base: usize,
    room: &mut [u8],
    item: usize,
) -> Result<JoinStep, Refusal>
    requires { Asked bytes.old env.now work.old room.old base item }
    ensures { PiecesJoinedIs table.now env.now base item work.old work.new
        bytes.old bytes.new room.new result }
{
    let end = pieces_end(table, item);
    let mut i = item + 1;
    let mut j = Join {
        kind: Kind::Blank,
        extent: Extent {
            out: Out {
                rec: RecAt(0),
                text: TextAt(0),
            },
            deep: 0,
        },
    };
    while i < end {
        let step = join_next(table, bytes, env, work, base, room, item, i, j)?;
        match step {
            JoinStep::Needs(b) => return Ok(JoinStep::Needs(b)),
            JoinStep::So(k) => {
                j = k;
                i = next_piece(table, i, end);
            }
        }
    }
    Ok(JoinStep::So(j))
}

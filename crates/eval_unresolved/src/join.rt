// One piece of an unresolved value joined to what the pieces before it have come to.
// Computes: Unresolved (join_piece)
ghost use Rattle.std.specs.Prelude.{length};
ghost use Rattle.eval_concat.specs.Steps.Contracts.{JoinAsked, JoinStepIs};
ghost use Rattle.eval_pieces.specs.Clauses.{PieceCase, Inside};

use codes::refusals;
use eval_concat::Join;
use eval_concat::steps::{JoinStep, step_of};
use eval_concat::text::{join_nothing, join_text};
use eval_concat_arrays::join_one;
use eval_concat_objects::join_objects;
use eval_pieces::Piece;
use text_chars::Refusal;

/// What the piece at item i comes to, joined. The stack is free from base on, but for what the piece has there.
pub fn join_piece(
    table: &[u16],
    bytes: &mut [u8],
    env: &[u8],
    work: &mut [u16],
    base: usize,
    room: &mut [u8],
    piece: Piece,
    j: Join,
    i: usize,
) -> Result<JoinStep, Refusal>
    requires { JoinAsked bytes.old work.old room.old base i j × Inside base (length env.now) piece }
    ensures { JoinStepIs table.now base i j (λ M known g. PieceCase M known env.now work.old g piece)
        work.old work.new bytes.old bytes.new room.old room.new result }
{
    match piece {
        Piece::Text { start, size } => {
            let end = start.0 + size.0;
            step_of(join_text(room, table, bytes, &env[start.0..end], j, i))
        }
        Piece::Undefined => step_of(join_nothing(room, table, bytes, j, i)),
        Piece::One { top, layer } => { join_one(table, bytes, work, base, room, top, layer, j, i) }
        Piece::Merged { lo, hi } => join_objects(table, bytes, work, base, room, lo, hi, j, i),
        Piece::Needs(b) => Ok(JoinStep::Needs(b)),
        Piece::Missing(place) => Err(Refusal {
            number: refusals::UNDEFINED,
            place,
        }),
    }
}

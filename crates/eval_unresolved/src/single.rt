// The value of one piece of an unresolved value, alone in the room for one value: "One piece keeps its type".
// Computes: Unresolved (substitution_value, of a piece that stands in the environment, on the stack or in the tables)
ghost use Rattle.eval_value_laws.specs.Clauses.{TakenIn};
ghost use Rattle.eval_unresolved.specs.Single.Contracts.{TextAsked, TextValueIs, ValueAsked, LayersValueIs, PieceAsked, PieceValueIs};

use codes::{kinds, refusals};
use eval_layers::Taken;
use eval_pieces::Piece;
use eval_results::extents::{Extent, clip};
use eval_results::values::Worked;
use eval_values::{LEVELS, taken_value};
use eval_writer::{Out, Source, put_string};
use text_chars::{EnvAt, EnvLen, RecAt, Refusal, TextAt, TextLen};

// A text of the environment as a string.
fn text_value(room: &mut [u8], env: &[u8], start: EnvAt, size: EnvLen) -> Extent
    requires { TextAsked env.now room.old start.0 size.0 }
    ensures { TextValueIs env.now start.0 size.0 result room.old room.new }
{
    let first = Out {
        rec: RecAt(0),
        text: TextAt(0),
    };
    let at = TextAt(start.0);
    let n = TextLen(size.0);
    let out = put_string(room, env, kinds::STRING, at, n, first);
    clip(out, 0)
}

// What layers came to, whose objects stand from top on.
fn layers_value(
    table: &[u16],
    bytes: &[u8],
    work: &mut [u16],
    room: &mut [u8],
    top: usize,
    taken: Taken,
) -> Worked
    requires { ValueAsked bytes.now work.old top room.old × TakenIn top taken }
    ensures { LayersValueIs table.now bytes.now top taken work.old work.new result
        room.old room.new }
{
    let answers = Source {
        rec: RecAt(doc_items::TRAIL),
        text: TextAt(doc_items::SHEET),
    };
    let first = Out {
        rec: RecAt(0),
        text: TextAt(0),
    };
    taken_value(table, bytes, work, room, answers, top, taken, first, LEVELS)
}

/// The value of a piece, from the room's start on. The stack is free from base on, but for what the piece has there.
pub fn value_of(
    table: &[u16],
    bytes: &[u8],
    env: &[u8],
    work: &mut [u16],
    base: usize,
    room: &mut [u8],
    piece: Piece,
) -> Result<Worked, Refusal>
    requires { PieceAsked bytes.now env.now work.old base room.old piece }
    ensures { PieceValueIs table.now bytes.now env.now base piece work.old work.new result
        room.old room.new }
{
    match piece {
        Piece::Text { start, size } => Ok(Worked::Done(text_value(room, env, start, size))),
        Piece::Undefined => Ok(Worked::Undefined),
        Piece::One { top, layer } => {
            let taken = Taken::One(layer);
            Ok(layers_value(table, bytes, work, room, top, taken))
        }
        Piece::Merged { lo, hi } => {
            let taken = Taken::Merged(hi);
            Ok(layers_value(table, bytes, work, room, lo, taken))
        }
        Piece::Needs(b) => Ok(Worked::Needs(b)),
        Piece::Missing(place) => {
            let number = refusals::UNDEFINED;
            Err(Refusal { number, place })
        }
    }
}

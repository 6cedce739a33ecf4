// What an unresolved value comes to against the answers so far: "One piece keeps its type"; several are joined, "pieces left to right".
// Computes: Unresolved (answer_of)
#![tactic(auto)]

pub mod join;
pub mod pieces;
pub mod single;

ghost use Rattle.eval_question_laws.specs.Clauses.{Asked};
ghost use Rattle.eval_question_laws.specs.Rules.{OnePiece};
ghost use Rattle.eval_unresolved.specs.Clauses.{OutcomeIs};
ghost use Rattle.eval_unresolved.specs.Parts.{SoleAsked, OutcomeFor};

use crate::pieces::join_pieces;
use crate::single::value_of;
use eval_concat::join_answer;
use eval_concat::steps::JoinStep;
use eval_pieces::cursor::is_sole;
use eval_pieces::piece_of;
use eval_results::sizes::{Outcome, outcome_of, sized};
use eval_results::values::Worked;
use text_chars::Refusal;

// ---- one piece

// The substitution that is the whole of an unresolved value.
fn sole(
    table: &[u16],
    bytes: &[u8],
    env: &[u8],
    work: &mut [u16],
    base: usize,
    room: &mut [u8],
    item: usize,
) -> Outcome
    requires { SoleAsked bytes.now env.now work.old room.old base item }
    ensures { OutcomeFor OnePiece table.now env.now base item work.old work.new
        bytes.now bytes.now result room.new }
{
    let piece = piece_of(table, bytes, env, work, base, item, item + 1);
    match value_of(table, bytes, env, work, base, room, piece) {
        Ok(Worked::Done(e)) => outcome_of(sized(e)),
        Ok(Worked::Undefined) => Outcome::Undefined,
        Ok(Worked::Needs(b)) => Outcome::Needs(b),
        Err(Refusal { number, place }) => Outcome::Refused { number, place },
    }
}

// ---- several pieces

// All pieces, joined.
fn several(
    table: &[u16],
    bytes: &mut [u8],
    env: &[u8],
    work: &mut [u16],
    base: usize,
    room: &mut [u8],
    item: usize,
) -> Outcome
    requires { Asked bytes.old env.now work.old room.old base item }
    ensures { OutcomeFor (λ ps. OnePiece ps → ⊥) table.now env.now base item work.old work.new
        bytes.old bytes.new result room.new }
{
    match join_pieces(table, bytes, env, work, base, room, item) {
        Ok(JoinStep::So(j)) => outcome_of(join_answer(room, j)),
        Ok(JoinStep::Needs(b)) => Outcome::Needs(b),
        Err(Refusal { number, place }) => Outcome::Refused { number, place },
    }
}

// ---- either

/// The unresolved value at an item: its value is written into the room. The stack is free from base on.
pub fn unresolved_value(
    table: &[u16],
    bytes: &mut [u8],
    env: &[u8],
    work: &mut [u16],
    base: usize,
    room: &mut [u8],
    item: usize,
) -> Outcome
    requires { Asked bytes.old env.now work.old room.old base item }
    ensures { OutcomeIs table.now env.now base item work.old work.new
        bytes.old bytes.new result room.new }
{
    if is_sole(table, item) {
        return sole(table, bytes, env, work, base, room, item);
    }
    several(table, bytes, env, work, base, room, item)
}

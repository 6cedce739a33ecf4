// What the pieces of a value come to, by numbers alone: how many there are, what the first is, and whether one is unlike it.
// Computes: Reading (`judge_value`)
#![tactic(auto)]

pub mod fields;
pub mod pieces;

ghost use Rattle.std.specs.Prelude.{◌≤◌};
ghost use Rattle.read_values.specs.Runs.{piece_room, GroupIs, AddIs, JudgeIs};

use doc_items::{REQUIRED, STRING, UNRESOLVED};
use text_chars::DocAt;

/// The pieces of a value so far.
#[derive(Clone, Copy)]
pub struct Run {
    /// how many there are
    pub count: usize,
    /// the kind of the first; up to `STRING` it is simple, from `REQUIRED` on a substitution
    pub kind: usize,
    /// whether a substitution is among them
    pub subs: bool,
    /// whether a literal piece is unlike the first, and the place of the first such
    pub odd: bool,
    pub place: DocAt,
}

/// What the pieces come to.
#[derive(Clone, Copy)]
pub enum Outcome {
    /// a value of a kind, and whether it is a simple one
    Value { kind: usize, simple: bool },
    /// there is no piece
    Nothing,
    /// mixed kinds: the place of the first piece unlike the first one
    Mixed { place: DocAt },
}

// The simple kinds are alike.
fn group(kind: usize) -> usize
    ensures { GroupIs kind result }
{
    if kind <= STRING {
        return STRING;
    }
    kind
}

/// With one piece more, of a kind, at a place.
pub fn add(run: Run, kind: usize, place: DocAt) -> Run
    requires { run.count ≤ piece_room }
    ensures { AddIs run kind place.0 result }
{
    if run.count == 0 {
        return Run {
            count: 1,
            kind,
            subs: REQUIRED <= kind,
            odd: false,
            place,
        };
    }
    let longer = Run {
        count: run.count + 1,
        ..run
    };
    if REQUIRED <= kind {
        return Run {
            subs: true,
            ..longer
        };
    }
    if run.odd {
        return longer;
    }
    let same = group(kind) == group(run.kind);
    Run {
        odd: !same,
        place,
        ..longer
    }
}

/// What the pieces come to.
pub fn judge(run: Run) -> Outcome
    ensures { JudgeIs run result }
{
    let kind = run.kind;
    if run.count == 0 {
        return Outcome::Nothing;
    }
    if run.subs {
        return Outcome::Value {
            kind: UNRESOLVED,
            simple: false,
        };
    }
    if run.odd {
        return Outcome::Mixed { place: run.place };
    }
    if STRING < kind {
        return Outcome::Value {
            kind,
            simple: false,
        };
    }
    if run.count == 1 {
        return Outcome::Value { kind, simple: true };
    }
    Outcome::Value {
        kind: STRING,
        simple: true,
    }
}

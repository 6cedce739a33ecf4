// The test of a value that is written from the start of its room on, by how far it goes and how deep it is nested (number 13 otherwise),
// and what an unresolved value comes to.
// Computes: Unresolved (sized)
ghost use Rattle.std.specs.Prelude.{◌≡◌};
ghost use Rattle.eval_results.specs.Sizes.Contracts.{within_c, sized_c};
ghost use Rattle.eval_results.specs.Sizes.Outcomes.{OutcomeOfIs};
ghost use Rattle.eval_results.specs.declared.sizes.Outcome.{Outcome};

use crate::extents::Extent;
use codes::refusals;
use sheet_sizes::{Sizes, within_size};
use text_chars::{DocAt, RecLen, TextLen};

/// What an unresolved value comes to once all that it needs is known.
#[derive(Clone, Copy)]
pub enum Answered {
    // a value, in the room
    Value(Extent),
    // it is undefined
    Undefined,
    // its value is over its size: refusal 13
    TooLarge,
}

/// What an unresolved value comes to against the answers so far.
#[derive(Clone, Copy)]
pub enum Outcome {
    // its value is in the room, so far and so deep
    Done(Extent),
    // it is undefined
    Undefined,
    // the answer of this question is needed first
    Needs(usize),
    // a refusal; place 0 where it has none
    Refused { number: u8, place: DocAt },
}

/// Whether a value is within its size.
pub fn is_within(e: Extent) -> bool
    ensures { result ≡ within_c e }
{
    let o = e.out;
    let rec = o.rec;
    let text = o.text;
    within_size(
        e.deep,
        Sizes {
            rec: RecLen(rec.0),
            text: TextLen(text.0),
        },
    )
}

/// "One piece keeps its type": its value is the answer, if it is within its size.
pub fn sized(e: Extent) -> Answered
    ensures { result ≡ sized_c e }
{
    if is_within(e) {
        return Answered::Value(e);
    }
    Answered::TooLarge
}

fn too_large() -> Outcome
    ensures { result ≡ Outcome.Refused 13 (record { 0 = 0 }) }
{
    Outcome::Refused {
        number: refusals::TOO_LARGE,
        place: DocAt(0),
    }
}

/// Where all that is needed is known. A value is tested, whatever the tables hold.
pub fn outcome_of(answered: Answered) -> Outcome
    ensures { OutcomeOfIs answered result }
{
    match answered {
        Answered::Value(e) => {
            if is_within(e) {
                return Outcome::Done(e);
            }
            too_large()
        }
        Answered::Undefined => Outcome::Undefined,
        Answered::TooLarge => too_large(),
    }
}

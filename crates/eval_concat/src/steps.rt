// The join with one piece more, where the piece may need an answer first: what each of the functions below `unresolved_value` that join one
// piece comes to; what it promises is in specs/Steps.
// Computes: Unresolved (join_piece)
ghost use Rattle.eval_concat.specs.Steps.Contracts.{StepOfIs};

use crate::Join;
use text_chars::Refusal;

/// The join with one piece more.
#[derive(Clone, Copy)]
pub enum JoinStep {
    So(Join),
    // the answer of this question is needed first
    Needs(usize),
}

/// Where the piece needed nothing.
pub fn step_of(joined: Result<Join, Refusal>) -> Result<JoinStep, Refusal>
    ensures { StepOfIs joined result }
{
    Ok(JoinStep::So(joined?))
}

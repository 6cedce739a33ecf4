// The length that a text writes: a number, whitespace, a unit.
// Computes: Micrometres (length_of)
#![tactic(auto)]

pub mod decimals;
pub mod micrometres;

ghost use Rattle.std.specs.Prelude.{◌≤◌, length};
ghost use Rattle.rules.specs.Sizes.{max_document};
ghost use Rattle.rules.specs.Micrometres.{with_rest, length_of};
ghost use Rattle.text_lengths.specs.Decimals.Contracts.{decimal_in};
ghost use Rattle.text_lengths.specs.Micrometres.Contracts.{MeasuredIs};

use crate::decimals::{Decimal, after_space, decimal_of, unit_at};
use crate::micrometres::{in_micrometres, no_length};
use codes::refusals;
use text_chars::{Cursor, Refusal};

// The length of the number with which a text begins, by what stands behind it.
fn with_rest(s: &[u8], string: bool, d: Decimal) -> Result<u32, Refusal>
    requires { (length s.now ≤ max_document) × (d.point.0 ≤ d.end.0) × (d.end.0 ≤ length s.now) }
    ensures { MeasuredIs (with_rest string s.now (decimal_in s.now d)) result }
{
    if d.end.0 == s.len() {
        return Err(no_length(refusals::BARE_NUMBER));
    }
    if !string {
        return Err(no_length(refusals::MALFORMED_LENGTH));
    }
    let Some(unit) = unit_at(s, after_space(s, Cursor { at: d.end })) else {
        return Err(no_length(refusals::MALFORMED_LENGTH));
    };
    if d.minus {
        return Err(no_length(refusals::MINUS_SIGN));
    }
    in_micrometres(s, unit, d)
}

/// The length that a text writes, of a string or of a number.
pub fn length_of(s: &[u8], string: bool) -> Result<u32, Refusal>
    requires { length s.now ≤ max_document }
    ensures { MeasuredIs (length_of string s.now) result }
{
    if text_chars::ill_formed(s).is_some() {
        return Err(no_length(refusals::MALFORMED_LENGTH));
    }
    let Some(d) = decimal_of(s) else {
        return Err(no_length(refusals::MALFORMED_LENGTH));
    };
    with_rest(s, string, d)
}

// Digits with a unit, in micrometres: exactly, and however many digits there are.
// Computes: Micrometres (in_micrometres)
ghost use Rattle.std.specs.Prelude.{◌≡◌, ◌-◌, ◌≤◌, min, length};
ghost use Rattle.rules.specs.Sizes.{max_document};
ghost use Rattle.rules.specs.Micrometres.{inch, in_micrometres};
ghost use Rattle.text_chars.specs.Cursor.{doc, refusal};
ghost use Rattle.text_lengths.specs.Decimals.Contracts.{decimal_in};
ghost use Rattle.text_lengths.specs.Micrometres.Contracts.{too_many, DigitsTo, WholeIs, FractionIs, MeasuredIs};

use crate::decimals::Decimal;
use codes::{bytes, refusals, units};
use text_chars::{DocAt, Refusal, byte_at};

/// Why there is no length. Its text stands in no document, so the place is 0.
pub fn no_length(number: u8) -> Refusal
    ensures { result ≡ refusal number (doc 0) }
{
    Refusal {
        number,
        place: DocAt(0),
    }
}

// What a digit counts.
fn digit_of(b: u32) -> u32
    ensures { result ≡ b - 48 }
{
    if b < bytes::ZERO {
        return 0;
    }
    b - bytes::ZERO
}

// What is over the limit is just over it.
fn capped(n: u32) -> u32
    ensures { result ≡ min too_many n }
{
    if units::TOO_MANY < n {
        return units::TOO_MANY;
    }
    n
}

/// What digits write, times a unit, however many there are: of a length, the micrometres before the dot. TOO_MANY stands for all that is
/// over it.
pub fn whole_part(s: &[u8], from: DocAt, to: DocAt, unit: u32) -> u32
    requires { DigitsTo s.now to.0 unit }
    ensures { WholeIs s.now from.0 to.0 unit result }
{
    let mut sum = 0u32;
    for at in from.0..to.0 {
        sum = capped(sum * 10 + digit_of(byte_at(s, DocAt(at))) * unit);
    }
    sum
}

// The micrometres of the digits behind the dot, if nothing is left over. From the last digit on: each is its own with what is behind it,
// divided by ten. If one of these is not whole, none before it is, and so not the sum.
fn fraction_part(s: &[u8], from: DocAt, to: DocAt, unit: u32) -> Option<u32>
    requires { DigitsTo s.now to.0 unit }
    ensures { FractionIs s.now from.0 to.0 unit result }
{
    let mut at = to.0;
    let mut rest = 0u32;
    while from.0 < at {
        at -= 1;
        let tenfold = digit_of(byte_at(s, DocAt(at))) * unit + rest;
        if 0 < tenfold % 10 {
            return None;
        }
        rest = tenfold / 10;
    }
    Some(rest)
}

/// The micrometres of a number with this unit.
pub fn in_micrometres(s: &[u8], unit: u32, d: Decimal) -> Result<u32, Refusal>
    requires { (length s.now ≤ max_document) × (d.point.0 ≤ d.end.0) × (d.end.0 ≤ length s.now) × (unit ≤ inch) }
    ensures { MeasuredIs (in_micrometres unit (decimal_in s.now d)) result }
{
    let Some(rest) = fraction_part(s, DocAt(d.point.0 + 1), d.end, unit) else {
        return Err(no_length(refusals::NOT_WHOLE_MICROMETRES));
    };
    let sum = whole_part(s, d.first, d.point, unit) + rest;
    if units::MOST_MICROMETRES < sum {
        return Err(no_length(refusals::TOO_LONG));
    }
    Ok(sum)
}

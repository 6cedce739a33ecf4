// Code units: hexadecimal digits, one and four in a row, and surrogates.
// Computes: Strings
ghost use Rattle.std.specs.Prelude.{◌≡◌, ◌≤◌, length};
ghost use Rattle.rules.specs.Sizes.{max_document};
ghost use Rattle.rules.specs.Strings.{is_high, is_low};
ghost use Rattle.text_escapes.specs.Units.{HexIs, UnitIs, High, Low, PairIs};

use codes::{bytes, letters, refusals};
use text_chars::{Cursor, DocAt, Refusal, Step};

// What is taken from a capital and from a small letter to have its value as a digit: A is 10.
const CAPITALS: u32 = letters::CAPITAL_A - 10;

const SMALLS: u32 = letters::A - 10;

// Unicode's surrogates, first halves and second halves of pairs, and the first character that takes a pair.
const FIRST_HIGH: u32 = 0xD800;

const LAST_HIGH: u32 = 0xDBFF;

const FIRST_LOW: u32 = 0xDC00;

const LAST_LOW: u32 = 0xDFFF;

const FIRST_PAIR: u32 = 0x10000;

// The digits of a code unit.
const DIGITS: usize = 4;

/// A code unit of four hexadecimal digits, and the cursor past it.
#[derive(Clone, Copy)]
pub struct Unit {
    pub unit: u32,
    pub next: Cursor,
}

/// The value of a character as a hexadecimal digit, if it is one.
pub fn hex_digit(ch: u32) -> Option<u32>
    ensures { HexIs ch result }
{
    if ch < bytes::ZERO {
        return None;
    }
    if ch <= bytes::NINE {
        return Some(ch - bytes::ZERO);
    }
    if ch < letters::CAPITAL_A {
        return None;
    }
    if ch <= letters::CAPITAL_F {
        return Some(ch - CAPITALS);
    }
    if ch < letters::A {
        return None;
    }
    if ch <= letters::F {
        return Some(ch - SMALLS);
    }
    None
}

/// The code unit that four hexadecimal digits give; `first` is the place of their escape.
pub fn hex_four(s: &[u8], c: Cursor, first: DocAt) -> Result<Unit, Refusal>
    requires { length s.now ≤ max_document }
    ensures { UnitIs s.now first.0 c.at.0 result }
{
    let mut at = c;
    let mut unit: u32 = 0;
    for turn in 0..DIGITS {
        let Some(Step { ch, next }) = at.step(s) else {
            return Err(Refusal {
                number: refusals::UNEXPECTED_END,
                place: DocAt(s.len()),
            });
        };
        let Some(d) = hex_digit(ch) else {
            return Err(Refusal {
                number: refusals::BAD_NUMBER_OR_STRING,
                place: first,
            });
        };
        unit = unit * 16 + d;
        at = next;
    }
    Ok(Unit { unit, next: at })
}

/// Whether a code unit is the first half of a surrogate pair.
pub fn is_high(unit: u32) -> bool
    ensures { result ≡ is_high unit }
{
    if unit < FIRST_HIGH {
        return false;
    }
    unit <= LAST_HIGH
}

/// Whether a code unit is the second half of a surrogate pair.
pub fn is_low(unit: u32) -> bool
    ensures { result ≡ is_low unit }
{
    if unit < FIRST_LOW {
        return false;
    }
    unit <= LAST_LOW
}

/// The code point of a surrogate pair.
pub fn pair(high: u32, low: u32) -> u32
    requires { (High high) × (Low low) }
    ensures { PairIs high low result }
{
    FIRST_PAIR + (high - FIRST_HIGH) * 1024 + (low - FIRST_LOW)
}

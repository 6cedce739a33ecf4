// The escapes of a quoted string.
// Computes: Strings
#![tactic(auto)]

mod units;

ghost use Rattle.std.specs.Prelude.{◌≡◌, ◌+◌, ◌-◌, ◌≤◌, ◌<◌, length};
ghost use Rattle.rules.specs.Sizes.{max_document};
ghost use Rattle.rules.specs.Strings.{mate_of, unicode_escape};
ghost use Rattle.text_escapes.specs.Units.{High};
ghost use Rattle.text_escapes.specs.Clauses.{LetterIs, ExpectIs, PointIs, EscapeIs};

use codes::{bytes, letters, refusals};
use text_bytes::encode;
use text_chars::{Cursor, DocAt, Refusal, Step, TextLen};
use units::{hex_four, is_high, is_low, pair};

/// The text of a string, or of an escape of one, that was decoded into a buffer: how many bytes it has, and the cursor past what was read.
#[derive(Clone, Copy)]
pub struct Quoted {
    pub next: Cursor,
    pub used: TextLen,
}

/// The cursor past one certain character of ASCII; `first` is the place of the escape.
pub fn expect(s: &[u8], c: Cursor, ch: u32, first: DocAt) -> Result<Cursor, Refusal>
    requires { (length s.now ≤ max_document) × (ch < 128) }
    ensures { ExpectIs ch s.now first.0 c.at.0 result }
{
    let Some(Step { ch: here, next }) = c.step(s) else {
        return Err(Refusal {
            number: refusals::UNEXPECTED_END,
            place: DocAt(s.len()),
        });
    };
    if here == ch {
        return Ok(next);
    }
    Err(Refusal {
        number: refusals::BAD_NUMBER_OR_STRING,
        place: first,
    })
}

// The character of an escape, by its code point, and the cursor past the escape.
#[derive(Clone, Copy)]
struct CodePoint {
    ch: u32,
    next: Cursor,
}

// The mate of a high surrogate, `\u` and four digits that give a low one: the pair's code point.
fn mate(s: &[u8], c: Cursor, first: DocAt, high: u32) -> Result<CodePoint, Refusal>
    requires { (length s.now ≤ max_document) × (High high) }
    ensures { PointIs (mate_of s.now first.0 high c.at.0) s.now c.at.0 result }
{
    let letter = expect(s, c, bytes::BACKSLASH, first)?;
    let digits = expect(s, letter, letters::U, first)?;
    let low = hex_four(s, digits, first)?;
    if is_low(low.unit) {
        return Ok(CodePoint {
            ch: pair(high, low.unit),
            next: low.next,
        });
    }
    Err(Refusal {
        number: refusals::BAD_NUMBER_OR_STRING,
        place: first,
    })
}

// The code point of an escape, from behind its `\u` on.
fn unicode_escape(s: &[u8], c: Cursor, first: DocAt) -> Result<CodePoint, Refusal>
    requires { length s.now ≤ max_document }
    ensures { PointIs (unicode_escape s.now first.0 c.at.0) s.now c.at.0 result }
{
    let half = hex_four(s, c, first)?;
    if is_low(half.unit) {
        return Err(Refusal {
            number: refusals::BAD_NUMBER_OR_STRING,
            place: first,
        });
    }
    if is_high(half.unit) {
        return mate(s, half.next, first, half.unit);
    }
    Ok(CodePoint {
        ch: half.unit,
        next: half.next,
    })
}

// The two characters of JSON's escapes that have no name in the grammar.
const BACKSPACE: u8 = 8;

const FORM_FEED: u8 = 12;

// The byte that a one-letter escape stands for, if there is such an escape.
fn letter_escape(ch: u32) -> Option<u8>
    ensures { LetterIs ch result }
{
    if ch == bytes::QUOTE {
        return Some(b'"');
    }
    if ch == bytes::BACKSLASH {
        return Some(b'\\');
    }
    if ch == bytes::SLASH {
        return Some(b'/');
    }
    if ch == letters::B {
        return Some(BACKSPACE);
    }
    if ch == letters::F {
        return Some(FORM_FEED);
    }
    if ch == letters::N {
        return Some(b'\n');
    }
    if ch == letters::R {
        return Some(b'\r');
    }
    if ch == letters::T {
        return Some(b'\t');
    }
    None
}

/// The escape whose backslash stands at `first`, from the character behind that on.
pub fn escape(s: &[u8], c: Cursor, first: DocAt, out: &mut [u8]) -> Result<Quoted, Refusal>
    requires { (length s.now ≤ max_document) × (c.at.0 ≡ first.0 + 1) × (length s.now - first.0 ≤ length out.old) }
    ensures { EscapeIs s.now first.0 out.old out.new result }
{
    let Some(Step { ch, next }) = c.step(s) else {
        return Err(Refusal {
            number: refusals::UNEXPECTED_END,
            place: DocAt(s.len()),
        });
    };
    if let Some(b) = letter_escape(ch) {
        out[0] = b;
        return Ok(Quoted {
            next,
            used: TextLen(1),
        });
    }
    if ch == letters::U {
        let point = unicode_escape(s, next, first)?;
        let used = encode(point.ch, out);
        return Ok(Quoted {
            next: point.next,
            used: TextLen(used),
        });
    }
    Err(Refusal {
        number: refusals::BAD_NUMBER_OR_STRING,
        place: first,
    })
}

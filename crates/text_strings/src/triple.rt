// Triple-quoted strings.
// Computes: Strings
ghost use Rattle.std.specs.Prelude.{◌-◌, ◌≤◌, length};
ghost use Rattle.rules.specs.Sizes.{max_document};
ghost use Rattle.text_strings.specs.Clauses.{ThreeIs, RunIs, AfterIs, RawIs};

use codes::{bytes, refusals};
use text_bytes::copy;
use text_chars::{Cursor, DocAt, Refusal, TextLen};
use text_escapes::{Quoted, expect};
use text_runs::raw_end;

/// The cursor past three quotes, if they stand at a cursor.
pub fn three_quotes(s: &[u8], c: Cursor) -> Option<Cursor>
    requires { length s.now ≤ max_document }
    ensures { ThreeIs s.now c.at.0 result }
{
    let Ok(second) = expect(s, c, bytes::QUOTE, DocAt(0)) else {
        return None;
    };
    let Ok(third) = expect(s, second, bytes::QUOTE, DocAt(0)) else {
        return None;
    };
    let Ok(next) = expect(s, third, bytes::QUOTE, DocAt(0)) else {
        return None;
    };
    Some(next)
}

// Where the first run of three quotes or more begins, if there is one.
fn find_run(s: &[u8], c: Cursor) -> Option<Cursor>
    requires { length s.now ≤ max_document }
    ensures { RunIs s.now c.at.0 result }
{
    let mut at = c;
    loop {
        let quote = raw_end(s, at);
        if let Some(next) = three_quotes(s, quote) {
            return Some(quote);
        }
        at = quote.step(s)?.next;
    }
}

// The cursor past a run of quotes.
fn after_quotes(s: &[u8], c: Cursor) -> Cursor
    requires { (length s.now ≤ max_document) × (c.at.0 ≤ length s.now) }
    ensures { AfterIs s.now c.at.0 result }
{
    let mut at = c;
    while let Ok(next) = expect(s, at, bytes::QUOTE, DocAt(0)) {
        at = next;
    }
    at
}

// The text from behind the first three quotes on, as it stands; of the closing run all but the last three quotes belong to it.
pub fn raw(s: &[u8], c: Cursor, out: &mut [u8]) -> Result<Quoted, Refusal>
    requires { (length s.now ≤ max_document) × (length s.now - c.at.0 ≤ length out.old) }
    ensures { RawIs s.now c.at.0 out.old out.new result }
{
    let Some(run) = find_run(s, c) else {
        return Err(Refusal {
            number: refusals::UNEXPECTED_END,
            place: DocAt(s.len()),
        });
    };
    let end = after_quotes(s, run);
    let to = end.at.0 - 3;
    let used = copy(s, c.at, DocAt(to), out);
    Ok(Quoted {
        next: end,
        used: TextLen(used),
    })
}

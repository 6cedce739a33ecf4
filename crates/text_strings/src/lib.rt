// Quoted and triple-quoted strings, decoded into a buffer that the caller lends. Decoding never grows: as much room as there is text
// left is enough.
// Computes: Strings
#![tactic(auto)]

use codes::{bytes, refusals};

mod triple;

ghost use Rattle.std.specs.Prelude.{◌≡◌, ◌-◌, ◌≤◌, length};
ghost use Rattle.rules.specs.Sizes.{max_document};
ghost use Rattle.rules.specs.Bytes.{byte_at};
ghost use Rattle.text_strings.specs.Clauses.{QuotedIs, BodyIs, PieceIs};

use text_bytes::copy;
use text_chars::{Cursor, DocAt, Refusal, Step, TextLen};
use text_escapes::{Quoted, escape, expect};
use text_runs::plain_end;
use triple::{raw, three_quotes};

// A piece of a quoted string's body.
#[derive(Clone, Copy)]
enum Piece {
    // its closing quote, and the cursor past it
    Close(Cursor),
    // one character or one escape
    More(Quoted),
}

fn next_piece(s: &[u8], c: Cursor, out: &mut [u8]) -> Result<Piece, Refusal>
    requires { (length s.now ≤ max_document) × (length s.now - c.at.0 ≤ length out.old) }
    ensures { PieceIs s.now c.at.0 out.old out.new result }
{
    let place = c.at;
    let Some(Step { ch, next }) = c.step(s) else {
        return Err(Refusal {
            number: refusals::UNEXPECTED_END,
            place: DocAt(s.len()),
        });
    };
    if ch == bytes::QUOTE {
        return Ok(Piece::Close(next));
    }
    if ch < bytes::FIRST_PRINTABLE {
        return Err(Refusal {
            number: refusals::BAD_NUMBER_OR_STRING,
            place,
        });
    }
    if ch == bytes::BACKSLASH {
        let text = escape(s, next, place, out)?;
        return Ok(Piece::More(text));
    }
    let used = copy(s, place, next.at, out);
    Ok(Piece::More(Quoted {
        next,
        used: TextLen(used),
    }))
}

// The text from behind the first quote on, up to the closing one: runs of ordinary characters, and a piece behind each.
fn body(s: &[u8], c: Cursor, out: &mut [u8]) -> Result<Quoted, Refusal>
    requires { (length s.now ≤ max_document) × (c.at.0 ≤ length s.now) × (length s.now - c.at.0 ≤ length out.old) }
    ensures { BodyIs s.now c.at.0 out.old out.new result }
{
    let mut at = c;
    let mut used: usize = 0;
    loop {
        let run = plain_end(s, at);
        let n = copy(s, at.at, run.at, &mut out[used..]);
        used += n;
        match next_piece(s, run, &mut out[used..])? {
            Piece::Close(next) => {
                return Ok(Quoted {
                    next,
                    used: TextLen(used),
                });
            }
            Piece::More(more) => {
                used += more.used.0;
                at = more.next;
            }
        }
    }
}

/// The string, quoted once or three times, whose first quote stands at the cursor. Its text is written to the start of `out`.
pub fn read_quoted(s: &[u8], c: Cursor, out: &mut [u8]) -> Result<Quoted, Refusal>
    requires { (length s.now ≤ max_document) × (byte_at s.now c.at.0 ≡ 34) × (length s.now - c.at.0 ≤ length out.old) }
    ensures { QuotedIs s.now c.at.0 out.old out.new result }
{
    if let Some(open) = three_quotes(s, c) {
        return raw(s, open, out);
    }
    let first = expect(s, c, bytes::QUOTE, DocAt(0))?;
    body(s, first, out)
}

// Runs of a string's body whose characters are copied as they stand: no quote, and in a quoted string no backslash and no control
// byte. Single characters are passed over first, then whole blocks of ASCII. A text may have any bytes: from a byte that is not ASCII
// on the cursor goes past the whole character, as it does elsewhere.
// Computes: Strings (body_from, quotes_run)
#![tactic(auto)]

ghost use Rattle.std.specs.Prelude.{◌≡◌, ◌≤◌, true, length};
ghost use Rattle.rules.specs.Sizes.{max_document};
ghost use Rattle.text_runs.specs.Clauses.{stops, Plain, BlockIs, RunIs, OneIs, PlainIs, RawRunIs};

use codes::bytes;
use text_chars::{Cursor, DocAt, block_passes};

// The bytes of a block.
const BLOCK: usize = 64;

const QUOTE: u8 = bytes::QUOTE as u8;

const BACKSLASH: u8 = bytes::BACKSLASH as u8;

const FIRST_PRINTABLE: u8 = bytes::FIRST_PRINTABLE as u8;

const NOT_ASCII: u8 = bytes::NOT_ASCII as u8;

// A byte that ends a run: the quote, another one, and those below a least.
fn stops_run(b: u8, least: u8, other: u8) -> bool
    ensures { result ≡ stops least other b }
{
    if b < least {
        return true;
    }
    if b == QUOTE {
        return true;
    }
    b == other
}

// A byte that a block may have: one of ASCII that ends no run.
fn is_plain(b: u8, least: u8, other: u8) -> bool
    ensures { result ≡ true → Plain least other b }
{
    if NOT_ASCII <= b {
        return false;
    }
    !stops_run(b, least, other)
}

// Whether a block stands at a place, all of ASCII that a run goes over.
fn plain_block(s: &[u8], at: usize, least: u8, other: u8) -> bool
    ensures { BlockIs least other s.now at result }
{
    block_passes::<BLOCK, _>(s, at, |b| is_plain(b, least, other))
}

// The place after the blocks that a run goes over.
fn blocks_end(s: &[u8], c: Cursor, least: u8, other: u8) -> Cursor
    ensures { RunIs least other s.now c.at.0 result }
{
    let mut p = c.at.0;
    while plain_block(s, p, least, other) {
        p += BLOCK;
    }
    Cursor { at: DocAt(p) }
}

// The cursor past the character at a cursor, if a run goes over it.
fn pass_one(s: &[u8], c: Cursor, least: u8, other: u8) -> Option<Cursor>
    requires { length s.now ≤ max_document }
    ensures { OneIs least other s.now c.at.0 result }
{
    let p = c.at.0;
    if s.len() <= p {
        return None;
    }
    let b = s[p];
    if stops_run(b, least, other) {
        return None;
    }
    if b < NOT_ASCII {
        return Some(Cursor { at: DocAt(p + 1) });
    }
    let step = c.step(s)?;
    Some(step.next)
}

// A run from a cursor on: as many single characters as a block has bytes, so that short runs try no block; then blocks. It may go on
// behind that.
fn run_end(s: &[u8], c: Cursor, least: u8, other: u8) -> Cursor
    requires { length s.now ≤ max_document }
    ensures { RunIs least other s.now c.at.0 result }
{
    let mut at = c;
    for _ in 0..BLOCK {
        let Some(next) = pass_one(s, at, least, other) else {
            return at;
        };
        at = next;
    }
    blocks_end(s, at, least, other)
}

/// The cursor past characters of which none is a quote, a backslash or a control byte. More of them may follow.
pub fn plain_end(s: &[u8], c: Cursor) -> Cursor
    requires { length s.now ≤ max_document }
    ensures { PlainIs s.now c.at.0 result }
{
    run_end(s, c, FIRST_PRINTABLE, BACKSLASH)
}

/// The cursor past characters of which none is a quote. More of them may follow.
pub fn raw_end(s: &[u8], c: Cursor) -> Cursor
    requires { length s.now ≤ max_document }
    ensures { RawRunIs s.now c.at.0 result }
{
    run_end(s, c, 0, QUOTE)
}

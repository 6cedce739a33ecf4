// Runs of records of one byte each: null, false, true. What goes over records may pass, count and copy a run without a look at each of them.
// Computes: Sheet
#![tactic(auto)]

ghost use Rattle.std.specs.Prelude.{◌≤◌, length};
ghost use Rattle.sheet_runs.specs.Clauses.{BlockIs, RunIs};

use codes::kinds;
use text_chars::{RecAt, block_passes};

// The bytes of a block.
const BLOCK: usize = 64;

// Single records are passed over first, so that short runs try no block.
const SINGLES: usize = 8;

// Whether a block stands at a place, up to an end, each of its bytes a record.
fn plain_block(s: &[u8], at: usize, end: usize) -> bool
    requires { end ≤ length s.now }
    ensures { BlockIs s.now at end result }
{
    block_passes::<BLOCK, _>(&s[..end], at, |b| b < kinds::NUMBER)
}

// The place after the blocks of a run.
fn blocks_end(s: &[u8], at: usize, end: usize) -> usize
    requires { end ≤ length s.now }
    ensures { RunIs s.now at end result }
{
    let mut p = at;
    while plain_block(s, p, end) {
        p += BLOCK;
    }
    p
}

// The place after a few records.
fn singles_end(s: &[u8], at: usize, end: usize) -> usize
    requires { end ≤ length s.now }
    ensures { RunIs s.now at end result }
{
    let mut p = at;
    for _ in 0..SINGLES {
        if end <= p {
            return p;
        }
        if kinds::NUMBER <= s[p] {
            return p;
        }
        p += 1;
    }
    p
}

/// The place after records of one byte each, from a place on up to an end. More of them may follow.
pub fn run_end(s: &[u8], at: RecAt, end: RecAt) -> RecAt
    ensures { RunIs s.now at.0 end.0 result.0 }
{
    if s.len() < end.0 {
        return at;
    }
    let p = singles_end(s, at.0, end.0);
    if p - at.0 < SINGLES {
        return RecAt(p);
    }
    RecAt(blocks_end(s, p, end.0))
}

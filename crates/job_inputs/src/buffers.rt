// The ends of the output buffers: bytes that are not used are zero.
// What resolve is lent: whether the budget is within its rule, and how much of a buffer is its room.
// Computes: Jobs (filled, buffers_of, resolve_job, room_of)
ghost use Rattle.job_inputs.specs.Buffers.Contracts.{ClearedIs, UsedIs, FinishedIs};
ghost use Rattle.std.specs.Prelude.{◌≡◌, leb, length};
ghost use Rattle.rules.specs.Sizes.{max_budget};
ghost use Rattle.rules.specs.Jobs.{room_of};

use codes::limits;
use job_results::Resolution;
use text_chars::{RecLen, Refusal, TextLen};

/// How many bytes of each part are used.
#[derive(Clone, Copy)]
pub struct Used {
    pub trail: RecLen,
    pub table: RecLen,
    pub text: TextLen,
}

// Zeros from an offset up to the end; what is before it stays.
fn clear_from(part: &mut [u8], used: usize)
    ensures { ClearedIs used part.old part.new }
{
    for i in used..part.len() {
        part[i] = 0;
    }
}

// What a resolution uses; a refused one nothing.
fn used_of(resolution: Result<Resolution, Refusal>) -> Used
    ensures { UsedIs resolution result }
{
    match resolution {
        Ok(sheet) => Used {
            trail: sheet.trail,
            table: sheet.table,
            text: sheet.text,
        },
        Err(_) => Used {
            trail: RecLen(0),
            table: RecLen(0),
            text: TextLen(0),
        },
    }
}

/// Zeros behind what a resolution uses of each part.
pub fn finish(
    trail: &mut [u8],
    table: &mut [u8],
    text: &mut [u8],
    resolution: Result<Resolution, Refusal>,
)
    ensures { FinishedIs resolution trail.old table.old text.old
        trail.new table.new text.new }
{
    let used = used_of(resolution);
    let s = used.trail.0;
    let t = used.table.0;
    let x = used.text.0;
    clear_from(trail, s);
    clear_from(table, t);
    clear_from(text, x);
}

/// Whether the budget is within its rule.
pub fn budget_fits(budget: u64) -> bool
    ensures { result ≡ leb budget max_budget }
{
    let most = limits::BUDGET as u64;
    budget <= most
}

/// How much of a buffer is its room.
pub fn room_of(part: &[u8]) -> usize
    ensures { result ≡ room_of (length part.now) }
{
    if limits::ROOM < part.len() {
        return limits::ROOM;
    }
    part.len()
}

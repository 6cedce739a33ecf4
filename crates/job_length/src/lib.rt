// A looked-up value's length: the job, and the 64 bits of its answer that C gets.
// Computes: Jobs (length_job)
#![tactic(auto)]

ghost use Rattle.std.specs.Prelude.{◌≡◌};
ghost use Rattle.rules.specs.Jobs.{record_length, length_job};
ghost use Rattle.text_lengths.specs.Micrometres.Contracts.{measured_of, MeasuredIs};
ghost use Rattle.job_length.specs.Clauses.{WholeTable};
ghost use Rattle.job_length.specs.Packed.{packed_length};

use codes::{kinds, limits, refusals};
use sheet_records::kinds::pair_at;
use text_chars::{RecAt, Refusal, TextLen, record_byte};
use text_lengths::micrometres::no_length;

// The kinds of records that refer to a text are a number and a string.
const NUMBER: u32 = kinds::NUMBER as u32;

const STRING: u32 = kinds::STRING as u32;

// The length that the record at a table's start refers to.
fn record_length(table: &[u8], text: &[u8]) -> Result<u32, Refusal>
    requires { WholeTable table.now text.now }
    ensures { MeasuredIs (record_length table.now text.now) result }
{
    let kind = record_byte(table, RecAt(0));
    if kind < NUMBER {
        return Err(no_length(refusals::MALFORMED_LENGTH));
    }
    if STRING < kind {
        return Err(no_length(refusals::MALFORMED_LENGTH));
    }
    let from = pair_at(table, RecAt(1));
    let to = from + pair_at(table, RecAt(3));
    text_lengths::length_of(&text[from..to], kind == STRING)
}

/// The length that a looked-up value writes, in whole micrometres: what the rules of the job give, for any bytes.
pub fn length(table: &[u8], text: &[u8]) -> Result<u32, Refusal>
    ensures { MeasuredIs (length_job table.now text.now) result }
{
    if limits::ROOM < table.len() {
        return Err(no_length(refusals::BAD_INPUT));
    }
    if limits::ROOM < text.len() {
        return Err(no_length(refusals::BAD_INPUT));
    }
    if sheet_records::is_whole(table, TextLen(text.len())) {
        record_length(table, text)
    } else {
        Err(no_length(refusals::NOT_A_TABLE))
    }
}

// The lowest bit of the micrometres, above the number.
const MICROMETRES: u64 = 64;

/// A length's or a refusal's 64 bits.
pub fn pack_length(measured: Result<u32, Refusal>) -> u64
    ensures { result ≡ packed_length (measured_of measured) }
{
    match measured {
        Ok(n) => n as u64 * MICROMETRES,
        Err(e) => e.number as u64,
    }
}

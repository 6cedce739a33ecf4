// The job check: a sheet is held against what the rules give, entry by entry. Nothing of the caller's is written.
// Computes: Jobs (check_job)
#![tactic(auto)]

pub mod trails;

ghost use Rattle.job_results.specs.Clauses.{CheckIs};
ghost use Rattle.job_check.specs.Clauses.{PartsFit};

use crate::trails::check_sheet;
use codes::limits;
use job_inputs::read_task;
use text_chars::Refusal;

// Whether no part of a sheet is over its bytes.
fn parts_fit(trail: &[u8], table: &[u8], text: &[u8]) -> bool
    ensures { PartsFit trail.now table.now text.now result }
{
    if limits::ROOM < trail.len() {
        return false;
    }
    if limits::ROOM < table.len() {
        return false;
    }
    if limits::ROOM < text.len() {
        return false;
    }
    true
}

/// Checks a sheet: what the rules of the job say, for any bytes.
pub fn check(
    document: &[u8],
    environment: &[u8],
    trail: &[u8],
    table: &[u8],
    text: &[u8],
) -> Result<(), Refusal>
    ensures { CheckIs document.now environment.now trail.now table.now text.now result }
{
    let mut numbers = [0u16; eval_state::TABLE];
    let mut bytes = [0u8; eval_state::BYTES];
    let mut work = [0u16; eval_stack::WORK];
    let mut room = [0u8; limits::RECORDS + limits::TEXT];
    let fit = parts_fit(trail, table, text);
    match read_task(fit, document, environment, &mut numbers, &mut bytes) {
        Err(e) => Err(e),
        Ok(read) => {
            check_sheet(
                &mut numbers,
                &mut bytes,
                environment,
                &mut work,
                &mut room,
                read.unresolved,
                trail,
                table,
                text,
            )
        }
    }
}

// How resolve and check begin: their inputs are read, and a document is made ready for the evaluator.
// Computes: Documents (inputs)
#![tactic(auto)]

pub mod buffers;
pub mod prepare;

ghost use Rattle.std.specs.Prelude.{◌≤◌, length};
ghost use Rattle.eval_state.specs.Memories.{job_table, job_bytes};
ghost use Rattle.job_inputs.specs.Clauses.{TaskIs};

use read_documents::Reading;
use text_chars::Refusal;

/// Reads a job's inputs, and makes a document that was read ready. The scratch is as long as a job's memory.
pub fn read_task(
    others_fit: bool,
    document: &[u8],
    environment: &[u8],
    table: &mut [u16],
    bytes: &mut [u8],
) -> Result<Reading, Refusal>
    requires { (job_table ≤ length table.old) × (job_bytes ≤ length bytes.old) }
    ensures { TaskIs others_fit document.now environment.now
        table.old bytes.old table.new bytes.new result }
{
    match read_documents::read_inputs(others_fit, document, environment, table, bytes) {
        Err(e) => Err(e),
        Ok(read) => {
            crate::prepare::prepare(table, bytes, read.items);
            Ok(read)
        }
    }
}

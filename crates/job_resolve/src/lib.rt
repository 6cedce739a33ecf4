// The job resolve: the inputs are read, the document is resolved into the rooms of the lent buffers, and what is not used of them is zeroed.
// Computes: Jobs (resolve_job, buffers_of)
#![tactic(auto)]

ghost use Rattle.job_results.specs.Clauses.{ResolveIs};
ghost use Rattle.job_resolve_laws.specs.Clauses.{ResolutionAsked, ResolutionIs};

use codes::limits;
use eval_settle::settle_root;
use eval_trail::Progress;
use job_inputs::buffers::{budget_fits, finish, room_of};
use job_inputs::read_task;
use job_results::Resolution;
use job_root::hand_root;
use text_chars::{RecAt, Refusal, TextAt};

// Resolves a document that was read into a job's memory: the root is settled, which lays the trail; then its value is evaluated once, and
// handed back. The buffers are no longer than their rooms.
fn resolution(
    numbers: &mut [u16],
    bytes: &mut [u8],
    environment: &[u8],
    budget: usize,
    trail: &mut [u8],
    table: &mut [u8],
    text: &mut [u8],
) -> Result<Resolution, Refusal>
    requires { ResolutionAsked numbers.old bytes.old environment.now budget trail.old text.old }
    ensures { ResolutionIs numbers.old bytes.old environment.now budget
        trail.old trail.new table.old table.new text.old text.new result }
{
    let mut stack = [0u16; eval_stack::WORK];
    let mut room = [0u8; limits::ROOM];
    let mut list = [0u16; eval_trail::turns::LIST];
    let start = Progress {
        used: RecAt(0),
        text: TextAt(0),
        begun: 0,
    };
    let at = settle_root(
        numbers,
        bytes,
        environment,
        &mut stack,
        &mut room,
        trail,
        text,
        &mut list,
        start,
        budget,
    )?;
    hand_root(numbers, bytes, &mut stack, &mut room, at, table, text)
}

/// Resolves a document in its environment, for any bytes, any budget and buffers of any length: what the rules of the job give, and every
/// byte of the buffers.
pub fn resolve(
    document: &[u8],
    environment: &[u8],
    budget: u64,
    trail: &mut [u8],
    table: &mut [u8],
    text: &mut [u8],
) -> Result<Resolution, Refusal>
    ensures { ResolveIs document.now environment.now budget
        trail.old table.old text.old trail.new table.new text.new result }
{
    let fits = budget_fits(budget);
    let s = room_of(trail);
    let t = room_of(table);
    let x = room_of(text);
    let mut numbers = [0u16; eval_state::TABLE];
    let mut bytes = [0u8; eval_state::BYTES];
    match read_task(fits, document, environment, &mut numbers, &mut bytes) {
        Err(e) => {
            let r = Err(e);
            finish(trail, table, text, r);
            r
        }
        Ok(_) => {
            let most = budget as usize;
            let r = resolution(
                &mut numbers,
                &mut bytes,
                environment,
                most,
                &mut trail[..s],
                &mut table[..t],
                &mut text[..x],
            );
            finish(trail, table, text, r);
            r
        }
    }
}

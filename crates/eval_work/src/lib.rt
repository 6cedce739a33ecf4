// A needed unresolved value is worked out with all those that it needs: those that have begun stand in a list, each needed by the one
// before it. Of the newest, what its pieces miss is worked out first, piece after piece; then it is evaluated once, and laid. So no join is
// repeated when an answer is missing.
// Computes: Jobs (orderOf), as theory_order's work
#![tactic(auto)]

ghost use Rattle.std.specs.Prelude.{◌≤◌, length};
ghost use Rattle.eval_trail.specs.Turns.Contracts.{list_room};
ghost use Rattle.eval_question_laws.specs.Work.{WorkAsked, WorkIs};
ghost use Rattle.eval_work.specs.Clauses.{OlderAsked, OlderIs};

use eval_outcomes::newest::newest_outcome;
use eval_outcomes::refusals::first_refusal;
use eval_results::sizes::Outcome;
use eval_trail::Progress;
use eval_trail::turns::{newest_item, turned};
use text_chars::Refusal;

// How many of n questions may have refused before, where the newest came to o: all, but for the newest where it was evaluated.
fn older(o: Outcome, n: usize) -> usize
    requires { OlderAsked o n }
    ensures { OlderIs o n result }
{
    match o {
        Outcome::Needs(b) => n,
        Outcome::Done(e) => n - 1,
        Outcome::Undefined => n - 1,
        Outcome::Refused { number, place } => n - 1,
    }
}

/// Works question b out, which has no answer, with all those that it needs. The list is lent, so that no level of settling holds one.
pub fn work(
    table: &mut [u16],
    bytes: &mut [u8],
    env: &[u8],
    stack: &mut [u16],
    base: usize,
    room: &mut [u8],
    trail: &mut [u8],
    text: &mut [u8],
    list: &mut [u16],
    b: usize,
    at: Progress,
    budget: usize,
) -> Result<Progress, Refusal>
    requires { WorkAsked table.old bytes.old env.now stack.old room.old trail.old text.old base b at budget
        × (list_room ≤ length list.old) }
    ensures { WorkIs env.now base b at budget
        table.old table.new bytes.old bytes.new
        stack.old stack.new
        trail.old trail.new text.old text.new result }
{
    // b is needed first, and nothing has begun
    let mut n = 0;
    let mut p = at;
    let mut o = Outcome::Needs(b);
    loop {
        match turned(table, bytes, room, o, list, n, p, budget, trail, text) {
            Err(refusal) => {
                let m = older(o, n);
                return Err(first_refusal(table, bytes, env, stack, base, room, list, m, refusal));
            }
            Ok(next) => {
                n = next.count;
                p = next.at;
            }
        }
        if n == 0 {
            return Ok(p);
        }
        let item = newest_item(table, list, n);
        o = newest_outcome(table, bytes, env, stack, base, room, list, n, item);
    }
}

// The order: what the root's value needs is worked out, one unresolved value after another, as its layers are walked. Nothing is written but
// the trail; when this is done, no answer that the root's value takes is missing. The list of questions is lent through all levels.
// Computes: theory_order's settling by levels
#![tactic(auto)]

ghost use Rattle.std.specs.Prelude.{◌≤◌, length};
ghost use Rattle.eval_trail.specs.Turns.Contracts.{list_room};
ghost use Rattle.eval_settle_laws.specs.Clauses.{OneAsked, OneIs, AllAsked, AllIs, RootAsked, RootIs};

use eval_needs::{need_at, need_of_layer};
use eval_settle_laws::{Need, Span};
use eval_trail::Progress;
use eval_values::LEVELS;
use eval_work::work;
use text_chars::Refusal;

// The root is the first item.
const ROOT: usize = 0;

// What one place needs: an answer is worked out, what is inside is settled one level lower. The stack is free from top on.
#[cycle(settle_all_settle_one)]
fn settle_one(
    table: &mut [u16],
    bytes: &mut [u8],
    env: &[u8],
    stack: &mut [u16],
    room: &mut [u8],
    trail: &mut [u8],
    text: &mut [u8],
    list: &mut [u16],
    top: usize,
    need: Need,
    at: Progress,
    budget: usize,
    levels: usize,
) -> Result<Progress, Refusal>
    requires { OneAsked table.old bytes.old env.now stack.old room.old trail.old text.old top need at budget
        × (list_room ≤ length list.old) }
    ensures { OneIs env.now top need at budget levels
        table.old table.new bytes.old bytes.new
        stack.old stack.new
        trail.old trail.new text.old text.new result }
{
    match need {
        Need::Nothing => Ok(at),
        Need::Answer(b) => work(
            table, bytes, env, stack, top, room, trail, text, list, b, at, budget,
        ),
        Need::Inside(span) => {
            if levels == 0 {
                return Ok(at);
            }
            settle_all(
                table,
                bytes,
                env,
                stack,
                room,
                trail,
                text,
                list,
                span,
                at,
                budget,
                levels - 1,
            )
        }
    }
}

// What all places of a span need, in turn. A key whose answer was missing is met again.
#[cycle(settle_all_settle_one)]
fn settle_all(
    table: &mut [u16],
    bytes: &mut [u8],
    env: &[u8],
    stack: &mut [u16],
    room: &mut [u8],
    trail: &mut [u8],
    text: &mut [u8],
    list: &mut [u16],
    span: Span,
    at: Progress,
    budget: usize,
    levels: usize,
) -> Result<Progress, Refusal>
    requires { AllAsked table.old bytes.old env.now stack.old room.old trail.old text.old span at budget
        × (list_room ≤ length list.old) }
    ensures { AllIs env.now span at budget levels
        table.old table.new bytes.old bytes.new
        stack.old stack.new
        trail.old trail.new text.old text.new result }
{
    let mut p = span.from;
    let end = span.end;
    let top = span.top;
    let mut state = at;
    while p < end {
        let met = need_at(table, bytes, stack, span, p);
        let need = met.need;
        state = settle_one(
            table, bytes, env, stack, room, trail, text, list, top, need, state, budget, levels,
        )?;
        p = met.next;
    }
    Ok(state)
}

/// All that the root's value needs, in its order.
pub fn settle_root(
    table: &mut [u16],
    bytes: &mut [u8],
    env: &[u8],
    stack: &mut [u16],
    room: &mut [u8],
    trail: &mut [u8],
    text: &mut [u8],
    list: &mut [u16],
    at: Progress,
    budget: usize,
) -> Result<Progress, Refusal>
    requires { RootAsked table.old bytes.old env.now stack.old room.old trail.old text.old at budget
        × (list_room ≤ length list.old) }
    ensures { RootIs env.now at budget
        table.old table.new bytes.old bytes.new stack.old
        trail.old trail.new text.old text.new result }
{
    let need = need_of_layer(table, bytes, stack, 0, ROOT);
    settle_one(
        table, bytes, env, stack, room, trail, text, list, 0, need, at, budget, LEVELS,
    )
}

// One turn of the order: what the newest question in the list came to is laid and it is taken out, or the one that it needs begins and is
// added. Whatever it came to, the caller has it.
// Computes: Jobs (orderOf), as theory_order's work
ghost use Rattle.std.specs.Prelude.{◌<◌};
ghost use Rattle.eval_trail.specs.Turns.Contracts.{LaidIs, BegunAsked, BegunIs, TurnAsked, TurnIs, ItemIs};

use crate::Progress;
use codes::limits;
use doc_items::number_at;
use eval_results::sizes::Outcome;
use text_chars::Refusal;

/// The list has the questions that have begun, the newest last, and behind them, for each, the item of the piece at which it goes on, 0 where it has
/// just begun.
pub const LIST: usize = 2 * limits::UNRESOLVED;

/// Where the pieces begin.
pub const PIECES: usize = limits::UNRESOLVED;

/// After a turn so many questions are in the list, and it has come so far; with none in it the order has ended.
#[derive(Clone, Copy)]
pub struct Next {
    pub count: usize,
    pub at: Progress,
}

// The newest of n questions was laid: it is taken out.
fn laid(n: usize, step: Result<Progress, Refusal>) -> Result<Next, Refusal>
    requires { 0 < n }
    ensures { LaidIs n step result }
{
    let at = step?;
    Ok(Next { count: n - 1, at })
}

// Question d begins, and is the newest of the list.
fn begun(
    table: &mut [u16],
    list: &mut [u16],
    n: usize,
    d: usize,
    at: Progress,
    budget: usize,
) -> Result<Next, Refusal>
    requires { BegunAsked table.old list.old n d at budget }
    ensures { BegunIs n d at budget table.old table.new list.old list.new result }
{
    let next = crate::begin(table, d, at, budget)?;
    list[n] = d as u16;
    list[PIECES + n] = 0;
    Ok(Next {
        count: n + 1,
        at: next,
    })
}

/// A turn of the newest of n questions in the list, which came to o; a value stands in the room. What is needed first may begin an empty list.
pub fn turned(
    table: &mut [u16],
    bytes: &mut [u8],
    room: &[u8],
    o: Outcome,
    list: &mut [u16],
    n: usize,
    at: Progress,
    budget: usize,
    trail: &mut [u8],
    text: &mut [u8],
) -> Result<Next, Refusal>
    requires { TurnAsked table.old bytes.old room.now o list.old n at budget trail.old text.old }
    ensures { TurnIs room.now o n at budget
        table.old table.new bytes.old bytes.new
        list.old list.new trail.old trail.new text.old text.new result }
{
    match o {
        Outcome::Refused { number, place } => Err(Refusal { number, place }),
        Outcome::Needs(d) => begun(table, list, n, d, at, budget),
        Outcome::Undefined => {
            let q = number_at(list, n - 1);
            let step = crate::lay_undefined(table, q, at, trail, text);
            laid(n, step)
        }
        Outcome::Done(e) => {
            let q = number_at(list, n - 1);
            let out = e.out;
            let step = crate::lay_answer(table, bytes, room, out, q, at, trail, text);
            laid(n, step)
        }
    }
}

/// The item of the newest of n questions in the list.
pub fn newest_item(table: &[u16], list: &[u16], n: usize) -> usize
    requires { 0 < n }
    ensures { ItemIs table.now list.now n result }
{
    let q = number_at(list, n - 1);
    number_at(table, doc_items::INDEX + q)
}

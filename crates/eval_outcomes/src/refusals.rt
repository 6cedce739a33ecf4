// A refusal, or an earlier one. The questions that are being worked out were not joined up to the piece that each of them waits for, so one of
// them may refuse before the place where the refusal came: they are evaluated once more, the oldest first.
// Computes: Jobs (orderOf), as answers' scanned
ghost use Rattle.eval_outcomes.specs.Refusals.Contracts.{RefusalAsked, RefusalIs};

use eval_results::sizes::Outcome;
use eval_trail::turns::newest_item;
use eval_unresolved::unresolved_value;
use text_chars::Refusal;

/// The refusal of the oldest of n questions in the list that refuses, or else the one that is given. The stack is free from base on.
pub fn first_refusal(
    table: &[u16],
    bytes: &mut [u8],
    env: &[u8],
    stack: &mut [u16],
    base: usize,
    room: &mut [u8],
    list: &[u16],
    n: usize,
    given: Refusal,
) -> Refusal
    requires { RefusalAsked table.now bytes.old env.now stack.old room.old list.now base n }
    ensures { RefusalIs table.now env.now list.now base n given.number given.place.0
        stack.old stack.new bytes.old result }
{
    for i in 0..n {
        let item = newest_item(table, list, i + 1);
        if let Outcome::Refused { number, place } = unresolved_value(
            table, bytes, env, stack, base, room, item,
        ) {
            return Refusal { number, place };
        }
    }
    given
}

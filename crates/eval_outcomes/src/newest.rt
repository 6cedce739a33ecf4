// What the newest question of the list comes to: what its pieces miss, from that on at which it goes on, is needed first, with no join between
// them. Where nothing is missing it is evaluated.
// Computes: Unresolved (answer_of), as answers' fate
ghost use Rattle.eval_outcomes.specs.Newest.Contracts.{FromAsked, FromIs, NewestAsked, NewestIs};

use doc_items::number_at;
use eval_ahead::{ahead, first_piece};
use eval_pieces::cursor::pieces_end;
use eval_results::sizes::Outcome;
use eval_trail::turns::PIECES;
use eval_unresolved::unresolved_value;

// In place of a piece: it has just begun. No piece is the first item.
const JUST_BEGUN: usize = 0;

// The piece at which the newest of n questions goes on.
fn piece_from(table: &[u16], list: &[u16], n: usize, item: usize) -> usize
    requires { FromAsked n item }
    ensures { FromIs table.now list.now n item result }
{
    let from = number_at(list, PIECES + (n - 1));
    if from == JUST_BEGUN {
        return first_piece(table, item);
    }
    from
}

/// What the newest of n questions in the list comes to, whose item is given; a value is written into the room. The list has then the piece at which
/// it goes on, their end where nothing is missing. The stack is free from base on.
pub fn newest_outcome(
    table: &[u16],
    bytes: &mut [u8],
    env: &[u8],
    stack: &mut [u16],
    base: usize,
    room: &mut [u8],
    list: &mut [u16],
    n: usize,
    item: usize,
) -> Outcome
    requires { NewestAsked bytes.old env.now stack.old room.old list.old base n item }
    ensures { NewestIs table.now env.now base n item stack.old stack.new
        bytes.old bytes.new list.old list.new result room.new }
{
    let from = piece_from(table, list, n, item);
    match ahead(table, bytes, env, stack, base, room, item, from) {
        Some(awaited) => {
            list[PIECES + (n - 1)] = awaited.piece as u16;
            Outcome::Needs(awaited.question)
        }
        None => {
            list[PIECES + (n - 1)] = pieces_end(table, item) as u16;
            unresolved_value(table, bytes, env, stack, base, room, item)
        }
    }
}

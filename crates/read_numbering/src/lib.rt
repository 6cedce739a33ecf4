// The second pass over a document's items: the unresolved values get their numbers, in the order of the items, and an index behind the
// items leads from a number to its item.
//
// Computes: Tree (number_root), Unresolved (unresolved_in), Documents (limited).
#![tactic(auto)]

ghost use Rattle.std.specs.Prelude.{◌≡◌, ◌≤◌, ◌<◌, length, set};
ghost use Rattle.rules.specs.Sizes.{max_unresolved};
ghost use Rattle.doc_items.specs.Room.{number_bound, capacity, table_room};
ghost use Rattle.read_numbering.specs.Clauses.{GiveIs, ItemIs, NumberIs};

use codes::{limits, refusals};
use doc_items::{COLUMN_NUMBER, COLUMN_PLACE, WIDTH};
use text_chars::{DocAt, Refusal};

// A number that fits.
fn put(table: &mut [u16], at: usize, x: usize)
    requires { (at < length table.old) × (x < number_bound) }
    ensures { table.new ≡ set table.old at x }
{
    table[at] = x as u16;
}

// Gives an item a number: in its last column, and in the index.
fn give(table: &mut [u16], i: usize, number: usize)
    requires { (i < capacity) × (number < max_unresolved) × (table_room ≤ length table.old) }
    ensures { GiveIs i number table.old table.new }
{
    put(table, WIDTH * i + COLUMN_NUMBER, number);
    put(table, doc_items::INDEX + number, i);
}

// Numbers an item, if it is that of an unresolved value.
fn number_item(table: &mut [u16], i: usize, count: usize) -> Result<usize, Refusal>
    requires { (i < capacity) × (count ≤ max_unresolved) × (table_room ≤ length table.old) }
    ensures { ItemIs i count table.old table.new result }
{
    let kind = doc_items::number_at(table, WIDTH * i);
    if kind == doc_items::UNRESOLVED {
        if count == limits::UNRESOLVED {
            // The place of an unresolved value is that of its first piece, which is the next item.
            let place = doc_items::number_at(table, WIDTH * (i + 1) + COLUMN_PLACE);
            return Err(Refusal {
                number: refusals::OVER_LIMIT,
                place: DocAt(place),
            });
        }
        give(table, i, count);
        return Ok(count + 1);
    }
    Ok(count)
}

/// How many unresolved values are among the first so many items of the table. Each gets its number, and the index behind the items leads
/// from number to item. The first one over the limit is refused.
pub fn number_items(table: &mut [u16], items: usize) -> Result<usize, Refusal>
    requires { (items ≤ capacity) × (table_room ≤ length table.old) }
    ensures { NumberIs table.old items table.new result }
{
    let mut count = 0;
    for i in 0..items {
        match number_item(table, i, count) {
            Err(e) => return Err(e),
            Ok(next) => count = next,
        }
    }
    Ok(count)
}

// The root's fields by key, in two columns of a job's table whose keys are numbered: the first field with a key's number, and from each field
// the next one with its number.
// Computes: Layers
#![tactic(auto)]

ghost use Rattle.std.specs.Prelude.{◌≤◌, ◌<◌};
ghost use Rattle.doc_items.specs.Room.{capacity};
ghost use Rattle.eval_keys.specs.Columns.{Room};
ghost use Rattle.eval_root_index.specs.Clauses.{FieldSizeIs, LinkBackIs, LinkByKeyIs, LinkRootIs};

use doc_items::{CAPACITY, COLUMN_SIZE, PIECE, WIDTH, number_at};
use eval_keys::{FIRST, KEYS, NEXT};

// The kind of an object.
const OBJECT: usize = doc_items::OBJECT;

// How many items a field has with those inside it: 0 of a piece, which is no field.
fn field_size(table: &[u16], i: usize) -> usize
    requires { i < capacity }
    ensures { FieldSizeIs table.now i result }
{
    if PIECE <= number_at(table, WIDTH * i) {
        return 0;
    }
    number_at(table, WIDTH * i + COLUMN_SIZE)
}

// Links each field of the root to the one before it, the first to 0, and gives the last.
fn link_back(table: &mut [u16], end: usize) -> usize
    requires { Room table.old × (end ≤ capacity) }
    ensures { LinkBackIs end table.old table.new result }
{
    let mut last = 0;
    let mut at = 1;
    while at < end {
        let size = field_size(table, at);
        if size == 0 {
            at += 1;
        } else {
            table[NEXT + at] = last as u16;
            last = at;
            at += size;
        }
    }
    last
}

// Goes back along those links from the last field, and puts each before those of its key that come after it.
fn link_by_key(table: &mut [u16], last: usize)
    requires { Room table.old × (last < capacity) }
    ensures { LinkByKeyIs last table.old table.new }
{
    let mut i = last;
    while i != 0 {
        let before = number_at(table, NEXT + i);
        let k = number_at(table, KEYS + i);
        // No field of a numbered table has such a number, and links back fall.
        if CAPACITY <= k {
            return;
        }
        if i <= before {
            return;
        }
        let next = number_at(table, FIRST + k);
        table[NEXT + i] = next as u16;
        table[FIRST + k] = i as u16;
        i = before;
    }
}

/// Links the root's fields by their keys' numbers, in a table of so many items, the root not counted, that have their numbers.
pub fn link_root(table: &mut [u16], items: usize)
    requires { Room table.old × (items < capacity) }
    ensures { LinkRootIs items table.old table.new }
{
    eval_keys::clear(table, FIRST, NEXT);
    if number_at(table, 0) == OBJECT {
        let last = link_back(table, items + 1);
        link_by_key(table, last);
    }
}

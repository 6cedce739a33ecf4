// A document that was read is made ready for the evaluator: no answer is there and nothing is begun, its keys have their numbers, and the
// root's fields their links.
// Computes: nothing of the rules; `eval_state` says what stands in memory then.
ghost use Rattle.std.specs.Prelude.{◌+◌, ◌≤◌, ◌<◌, length};
ghost use Rattle.doc_items.specs.Room.{capacity, table_room};
ghost use Rattle.job_inputs.specs.Prepare.Contracts.{BoundIs, Bounded, PrepareAsked, PrepareIs};

use doc_items::{COLUMN_KEY, COLUMN_KEYLEN, WIDTH, number_at};

// An element's item may have any numbers for a key, which nothing asks. One that does not end among the document's texts is made empty, so
// that no key hangs on bytes that change.
fn bound_key(table: &mut [u16], i: usize)
    requires { (i < capacity) × (table_room ≤ length table.old) }
    ensures { BoundIs i table.old table.new }
{
    let at = number_at(table, WIDTH * i + COLUMN_KEY);
    let len = number_at(table, WIDTH * i + COLUMN_KEYLEN);
    if doc_items::TEXTS < at + len {
        table[WIDTH * i + COLUMN_KEYLEN] = 0;
    }
}

// So of so many items, the root's not counted.
fn bound_keys(table: &mut [u16], items: usize)
    requires { (items < capacity) × (table_room ≤ length table.old) }
    ensures { Bounded (items + 1) table.old table.new }
{
    for i in 1..items + 1 {
        bound_key(table, i);
    }
}

/// Makes a document of so many items, the root's not counted, ready.
pub fn prepare(table: &mut [u16], bytes: &[u8], items: usize)
    requires { PrepareAsked table.old bytes.now items }
    ensures { PrepareIs items bytes.now table.old table.new }
{
    eval_keys::clear(table, doc_items::ANSWERS, eval_keys::KEYS);
    eval_keys::clear(table, eval_state::BEGUN, eval_state::TABLE);
    bound_keys(table, items);
    eval_keys::number_keys(table, bytes, items);
    eval_root_index::link_root(table, items);
}

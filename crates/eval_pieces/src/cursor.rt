// Where the items of an unresolved value's pieces begin and end, and whether there is one that is a substitution. The numbers may be any: the
// items go on, and they end.
// Computes: Unresolved (answer_of: which case), by the items
ghost use Rattle.std.specs.Prelude.{◌<◌, ◌≤◌};
ghost use Rattle.doc_items.specs.Room.{capacity};
ghost use Rattle.eval_pieces.specs.Cursor.Contracts.{EndIs, NextIs, SoleIs};

use doc_items::{CAPACITY, COLUMN_SIZE, PIECE, REQUIRED, WIDTH, number_at};

/// The item behind the pieces of the unresolved value at an item.
pub fn pieces_end(table: &[u16], item: usize) -> usize
    requires { item < capacity }
    ensures { EndIs table.now item result }
{
    let end = item + number_at(table, WIDTH * item + COLUMN_SIZE);
    if CAPACITY < end {
        return CAPACITY;
    }
    end
}

/// The item of the piece behind that at item i.
pub fn next_piece(table: &[u16], i: usize, end: usize) -> usize
    requires { (i < end) × (end ≤ capacity) }
    ensures { NextIs table.now i end result }
{
    let next = i + number_at(table, WIDTH * i + COLUMN_SIZE);
    if next <= i {
        return end;
    }
    if end < next {
        return end;
    }
    next
}

/// Whether the unresolved value at an item is one substitution.
pub fn is_sole(table: &[u16], item: usize) -> bool
    requires { item < capacity }
    ensures { SoleIs table.now item result }
{
    let end = pieces_end(table, item);
    let i = item + 1;
    if end <= i {
        return false;
    }
    if number_at(table, WIDTH * i) < PIECE + REQUIRED {
        return false;
    }
    let next = i + number_at(table, WIDTH * i + COLUMN_SIZE);
    if next == end {
        return true;
    }
    false
}

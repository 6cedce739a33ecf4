// The look-back of a substitution, found by going down from the root: at each object literal the field in which the unresolved value
// stands, as long as its key is the path's next element. A path is given by the key numbers of its elements.
// Computes: Unresolved (layers_for, by the descent of `theory_back`)
#![tactic(auto)]

ghost use Rattle.std.specs.Prelude.{◌<◌};
ghost use Rattle.doc_items.specs.Room.{capacity, number_bound};
ghost use Rattle.eval_look_back.specs.Clauses.{AroundIs, RootAroundIs, HasKeyIs, Going, LooksBackIs};

use doc_items::{COLUMN_SIZE, PIECE, WIDTH, number_at};
use eval_keys::{FIRST, KEYS, NEXT};

// The kind of an object.
const OBJECT: usize = doc_items::OBJECT;

/// The field of an object literal in whose span an item stands; it may be the item's own.
pub fn field_around(table: &[u16], literal: usize, item: usize) -> usize
    requires { (literal < item) × (item < capacity) }
    ensures { AroundIs table.now literal item result }
{
    let mut at = literal + 1;
    while at < item {
        let kind = number_at(table, WIDTH * at);
        if kind < PIECE {
            let size = number_at(table, WIDTH * at + COLUMN_SIZE);
            let next = at + size;
            if item < next {
                return at;
            }
            // No field has no items: this ends the walk whatever the table holds.
            if next <= at {
                return at;
            }
            at = next;
        } else {
            at += 1;
        }
    }
    at
}

/// The root's field with a key's number in whose span an item stands; 0 if there is none. Only the fields of that key are passed: they are
/// linked. Links that are right rise, so the walk ends where one does not.
pub fn root_field_around(table: &[u16], key: usize, item: usize) -> usize
    requires { key < number_bound }
    ensures { RootAroundIs table.now key item result }
{
    let mut at = number_at(table, FIRST + key);
    while at != 0 {
        if item < at {
            return 0;
        }
        let size = number_at(table, WIDTH * at + COLUMN_SIZE);
        if item < at + size {
            return at;
        }
        let next = number_at(table, NEXT + at);
        if next <= at {
            return 0;
        }
        at = next;
    }
    0
}

// Whether a key number is among those of a path.
fn has_key(keys: &[u16], count: usize, key: usize) -> bool
    ensures { HasKeyIs keys.now count key result }
{
    for element in 0..count {
        if number_at(keys, element) == key {
            return true;
        }
    }
    false
}

// Goes down from the root's field around an item, whose key is a path's first element, as long as the fields around the item have the further
// elements as their keys. Where that leads to the item itself: how many elements there were; else 0.
fn descend(table: &[u16], keys: &[u16], count: usize, item: usize, field: usize) -> usize
    requires { Going table.now keys.now count item field 1 × (item < capacity) }
    ensures { LooksBackIs table.now keys.now count item result }
{
    let mut literal = field;
    for i in 1..count {
        let kind = number_at(table, WIDTH * literal);
        if kind != OBJECT {
            return 0;
        }
        let inner = field_around(table, literal, item);
        let key = number_at(table, KEYS + inner);
        let next = number_at(keys, i);
        if key != next {
            return 0;
        }
        if inner == item {
            return i + 1;
        }
        literal = inner;
    }
    0
}

/// Whether a path looks back at an unresolved value's item: how many elements the path of its field has, with which it then begins; else 0.
/// Most paths do not have the field's own key among their elements; that is asked first.
pub fn looks_back(table: &[u16], keys: &[u16], count: usize, item: usize) -> usize
    requires { (0 < item) × (item < capacity) }
    ensures { LooksBackIs table.now keys.now count item result }
{
    let own = number_at(table, KEYS + item);
    if has_key(keys, count, own) {
        let first = number_at(keys, 0);
        let field = root_field_around(table, first, item);
        if field == 0 {
            return 0;
        }
        if field == item {
            return 1;
        }
        return descend(table, keys, count, item, field);
    }
    0
}

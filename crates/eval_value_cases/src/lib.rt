// What a value is written from, by what its layers come to; and its beginning: what needs no other values is written, the members of an object
// are gathered. So the cycle of values only writes members.
// The members of objects and arrays as what their layers come to, before their values are written.
// Computes: Settled (layer_in, merged_in, counted_in, members_in, node_in; by the relations of eval_value_laws)
#![tactic(auto)]

ghost use Rattle.std.specs.Prelude.{◌≤◌, ◌<◌};
ghost use Rattle.eval_stack.specs.Model.{entries};
ghost use Rattle.eval_value_laws.specs.Clauses.{Asked, TakenIn, OriginIs, BegunIs, FieldIs, ElementTakenIs, ElementsEndIs};
ghost use Rattle.doc_items.specs.Room.{capacity};

use doc_items::{CAPACITY, COLUMN_SIZE, PIECE, WIDTH, number_at};
use eval_groups::sources::{entry_key, members_from, take_from};
use eval_layers::Taken;
use eval_leaves::{finished_value, key_before, simple_value};
use eval_nodes::answer::Answered;
use eval_nodes::layer_of;
use eval_results::values::Worked;
use eval_stack::{code_at, link_at, push};
use eval_value_laws::{Begun, Field, Origin};
use eval_writer::{Out, Source};

// One layer by its kind; objects that merge by the first, since one that is finished is copied as it is. With no level left there is no
// array and no object.
fn origin_of(table: &[u16], work: &[u16], top: usize, taken: Taken, levels: usize) -> Origin
    requires { (top ≤ entries) × TakenIn top taken }
    ensures { OriginIs table.now work.now top taken levels result }
{
    match taken {
        Taken::Nothing => Origin::Nothing,
        Taken::Needs(b) => Origin::Needs(b),
        Taken::One(layer) => {
            if CAPACITY <= layer {
                return Origin::Finished(layer - CAPACITY);
            }
            let kind = number_at(table, WIDTH * layer) % PIECE;
            if kind <= doc_items::STRING {
                return Origin::Simple(layer);
            }
            if levels == 0 {
                return Origin::Nothing;
            }
            if kind == doc_items::ARRAY {
                return Origin::Array(layer);
            }
            Origin::Object(layer)
        }
        Taken::Merged(hi) => {
            if hi == top + 1 {
                let layer = code_at(work, top);
                if CAPACITY <= layer {
                    return Origin::Finished(layer - CAPACITY);
                }
            }
            if levels == 0 {
                return Origin::Nothing;
            }
            Origin::Objects(hi)
        }
    }
}

/// The beginning of the value of what layers come to, whose objects stand from top on.
pub fn begin_value(
    table: &[u16],
    bytes: &[u8],
    work: &mut [u16],
    room: &mut [u8],
    src: Source,
    top: usize,
    taken: Taken,
    o: Out,
    levels: usize,
) -> Begun
    requires { Asked bytes.now src work.old top o room.old × TakenIn top taken }
    ensures { BegunIs table.now bytes.now src top taken o levels work.old work.new result room.old room.new }
{
    match origin_of(table, work, top, taken, levels) {
        Origin::Nothing => Begun::Ended(Worked::Undefined),
        Origin::Needs(b) => Begun::Ended(Worked::Needs(b)),
        Origin::Finished(at) => Begun::Ended(finished_value(room, table, bytes, src, at, o)),
        Origin::Simple(item) => Begun::Ended(simple_value(room, table, bytes, item, o)),
        Origin::Array(item) => Begun::Elements(item),
        Origin::Object(layer) => {
            let base = push(work, top, layer);
            let end = members_from(table, bytes, work, src, top, base);
            Begun::Members { base, top: end }
        }
        Origin::Objects(base) => {
            let end = members_from(table, bytes, work, src, top, base);
            Begun::Members { base, top: end }
        }
    }
}

/// What is met at p of members that go up to top. What a key's layers come to is decided before the key is written.
pub fn field_at(
    table: &[u16],
    bytes: &[u8],
    work: &mut [u16],
    room: &mut [u8],
    src: Source,
    p: usize,
    top: usize,
    o: Out,
) -> Field
    requires { Asked bytes.now src work.old top o room.old × (p < top) }
    ensures { FieldIs table.now bytes.now src p top o work.old work.new result room.old room.new }
{
    if link_at(work, p) < p {
        return Field::Pass;
    }
    let k = entry_key(table, bytes, work, src, p);
    match take_from(table, bytes, work, src, p, top) {
        Taken::Nothing => Field::Pass,
        Taken::Needs(b) => Field::Needs(b),
        Taken::One(layer) => {
            let out = key_before(room, table, bytes, k, o);
            Field::At {
                taken: Taken::One(layer),
                out,
            }
        }
        Taken::Merged(hi) => {
            let out = key_before(room, table, bytes, k, o);
            Field::At {
                taken: Taken::Merged(hi),
                out,
            }
        }
    }
}

/// The place behind the elements of the array at an item.
pub fn elements_end(table: &[u16], item: usize) -> usize
    requires { item < capacity }
    ensures { ElementsEndIs table.now item result }
{
    item + number_at(table, WIDTH * item + COLUMN_SIZE)
}

/// An element: an unresolved value's answer, or the element itself.
pub fn element_taken(table: &[u16], item: usize) -> Taken
    ensures { ElementTakenIs table.now item result }
{
    match layer_of(table, item) {
        Answered::Missing(b) => Taken::Needs(b),
        Answered::Undefined => Taken::Nothing,
        Answered::Layer(layer) => Taken::One(layer),
    }
}

// The cycle of values: what layers come to, the members of objects and the elements of an array, against the answers so far, written into the
// value's room, or where an answer is missing. What is undefined leaves the room as it was.
// Computes: Settled (counted_in, members_in, elements_in; by the relations of eval_value_laws)
#![tactic(auto)]

pub mod objects;

ghost use Rattle.std.specs.Prelude.{◌<◌, ◌≤◌};
ghost use Rattle.doc_items.specs.Room.{capacity};
ghost use Rattle.eval_value_laws.specs.Clauses.{Asked, ElementsIs, FieldsIs, TakenIn, TakenValueIs};

use codes::kinds;
use eval_groups::sources::element_at;
use eval_layers::Taken;
use eval_leaves::behind_head;
use eval_nodes::Member;
use eval_results::extents::Extent;
use eval_results::values::{Made, Worked, headed, one_more};
use eval_value_cases::{begin_value, element_taken, elements_end, field_at};
use eval_value_laws::{Begun, Field};
use eval_writer::{Out, Source};

/// How many levels of values may stand inside one another: 32 of the document, 32 of an answer, and one more.
pub const LEVELS: usize = 65;

/// "Value of a path": of what its layers come to, whose objects stand from top on.
#[cycle(elements_value_fields_value_taken_value)]
pub fn taken_value(
    table: &[u16],
    bytes: &[u8],
    work: &mut [u16],
    room: &mut [u8],
    src: Source,
    top: usize,
    taken: Taken,
    o: Out,
    levels: usize,
) -> Worked
    requires { Asked bytes.now src work.old top o room.old × TakenIn top taken }
    ensures { TakenValueIs table.now bytes.now src top taken o levels work.old work.new result room.old room.new }
{
    match begin_value(table, bytes, work, room, src, top, taken, o, levels) {
        Begun::Ended(v) => v,
        Begun::Elements(item) => {
            let inner = behind_head(o);
            let made = elements_value(table, bytes, work, room, src, top, item, inner, levels - 1);
            headed(room, o, kinds::ARRAY, made)
        }
        Begun::Members { base, top: end } => {
            let inner = behind_head(o);
            let made = fields_value(table, bytes, work, room, src, base, end, inner, levels - 1);
            headed(room, o, kinds::OBJECT, made)
        }
    }
}

/// The value of each key of the members from base to top, which are grouped by key, in the order of their first ones.
#[cycle(elements_value_fields_value_taken_value)]
pub fn fields_value(
    table: &[u16],
    bytes: &[u8],
    work: &mut [u16],
    room: &mut [u8],
    src: Source,
    base: usize,
    top: usize,
    o: Out,
    levels: usize,
) -> Made
    requires { Asked bytes.now src work.old top o room.old × (base ≤ top) }
    ensures { FieldsIs table.now bytes.now src base top o levels work.old work.new result room.old room.new }
{
    let mut p = base;
    let mut n = 0;
    let mut e = Extent { out: o, deep: 0 };
    while p < top {
        let so_far = e.out;
        match field_at(table, bytes, work, room, src, p, top, so_far) {
            Field::Pass => {
                p += 1;
            }
            Field::Needs(b) => {
                return Made::Needs(b);
            }
            Field::At { taken, out } => {
                let v = taken_value(table, bytes, work, room, src, top, taken, out, levels);
                match one_more(n, e, v) {
                    Made::Needs(b) => {
                        return Made::Needs(b);
                    }
                    Made::Done { count, extent } => {
                        n = count;
                        e = extent;
                        p += 1;
                    }
                }
            }
        }
    }
    Made::Done {
        count: n,
        extent: e,
    }
}

/// The elements of an array of the document, one behind the other.
#[cycle(elements_value_fields_value_taken_value)]
pub fn elements_value(
    table: &[u16],
    bytes: &[u8],
    work: &mut [u16],
    room: &mut [u8],
    src: Source,
    top: usize,
    item: usize,
    o: Out,
    levels: usize,
) -> Made
    requires { Asked bytes.now src work.old top o room.old × (item < capacity) }
    ensures { ElementsIs table.now bytes.now src top item o levels work.old work.new result room.old room.new }
{
    let end = elements_end(table, item);
    let mut at = item + 1;
    let mut n = 0;
    let mut e = Extent { out: o, deep: 0 };
    loop {
        match element_at(table, bytes, src, at, end) {
            Member::End => {
                return Made::Done {
                    count: n,
                    extent: e,
                };
            }
            Member::Seam(next) => {
                at = next;
            }
            Member::At { layer, next } => {
                let out = e.out;
                let taken = element_taken(table, layer);
                let v = taken_value(table, bytes, work, room, src, top, taken, out, levels);
                match one_more(n, e, v) {
                    Made::Needs(b) => {
                        return Made::Needs(b);
                    }
                    Made::Done { count, extent } => {
                        n = count;
                        e = extent;
                    }
                }
                at = next;
            }
        }
    }
}

// The layers of a substitution's path, on the stack: looking back, those before the field of its unresolved value, level by level; else
// those of the whole root.
// Computes: Unresolved (layers_for)
#![tactic(auto)]

pub mod keys;
pub mod paths;
pub mod root_fields;

ghost use Rattle.std.specs.Prelude.{◌<◌, ◌≤◌};
ghost use Rattle.doc_items.specs.Room.{capacity};
ghost use Rattle.eval_nodes.specs.Clauses.{Few};
ghost use Rattle.eval_stack.specs.Model.{entries, Work};
ghost use Rattle.eval_substitutions.specs.Clauses.{BeforeIs, LayersForIs, PathLayersIs};

use crate::keys::{PATH_CAPACITY, path_keys, route_of};
use crate::paths::walk_path;
use crate::root_fields::of_root;
use doc_items::{CAPACITY, number_at};
use eval_layers::{Part, deeper, push_members_named};
use eval_look_back::{field_around, looks_back, root_field_around};

// The layers before the field whose whole value an item is, of a path that looks back there: from those of the root's field around the item on,
// level by level, one key deeper than the layers so far, and above them the literal's earlier fields of that key.
fn before(
    table: &[u16],
    records: &[u8],
    work: &mut [u16],
    root: Part,
    keys: &[u16],
    item: usize,
    field: usize,
) -> Part
    requires { Few records.now × Work work.old × (root.lo ≤ root.hi) × (root.hi ≤ entries) × (field ≤ item) × (item < capacity) }
    ensures { BeforeIs table.now records.now keys.now item field root work.old
        work.new result }
{
    let mut literal = field;
    let mut i = 1;
    let mut part = root;
    while literal < item {
        let inner = field_around(table, literal, item);
        let key = number_at(keys, i);
        let hi = part.hi;
        let below = deeper(table, records, work, part, hi, key);
        let first = literal + 1;
        let walk = push_members_named(table, records, work, hi, below, key, first, inner);
        part = Part {
            lo: hi,
            hi: walk.top,
            stuck: walk.stuck,
        };
        literal = inner;
        i += 1;
    }
    part
}

/// The layers of a substitution's path, from base on, in the unresolved value at an item: where it looks back, those of its field's path
/// before the field, else the root's of its first element; then one key deeper for each further element.
pub fn layers_for(
    table: &[u16],
    records: &[u8],
    work: &mut [u16],
    base: usize,
    keys: &[u16],
    count: usize,
    item: usize,
) -> Part
    requires { Few records.now × Work work.old × (base ≤ entries) × (0 < item) × (item < capacity) }
    ensures { LayersForIs table.now records.now keys.now count item base work.old
        work.new result }
{
    let own = looks_back(table, keys, count, item);
    let first = number_at(keys, 0);
    if 0 < own {
        let field = root_field_around(table, first, item);
        let walk = of_root(table, work, base, first, field);
        let root = Part {
            lo: base,
            hi: walk.top,
            stuck: walk.stuck,
        };
        let part = before(table, records, work, root, keys, item, field);
        return walk_path(table, records, work, part, keys, count, own);
    }
    let walk = of_root(table, work, base, first, CAPACITY);
    let part = Part {
        lo: base,
        hi: walk.top,
        stuck: walk.stuck,
    };
    walk_path(table, records, work, part, keys, count, 1)
}

/// The layers of the path of the substitution at item i, which stands in the unresolved value at another item.
pub fn path_layers(
    table: &[u16],
    records: &[u8],
    texts: &[u8],
    work: &mut [u16],
    base: usize,
    item: usize,
    i: usize,
) -> Part
    requires { Few records.now × Work work.old × (base ≤ entries) × (0 < item) × (item < capacity) × (i < capacity) }
    ensures { PathLayersIs table.now texts.now records.now base item i work.old
        work.new result }
{
    let route = route_of(table, i);
    let count = route.count;
    let mut keys = [0u16; PATH_CAPACITY];
    path_keys(table, texts, route, &mut keys);
    layers_for(table, records, work, base, &keys, count, item)
}

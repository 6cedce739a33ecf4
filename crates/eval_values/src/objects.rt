// The value of a layer and of objects that merge, over the cycle of values.
// Computes: Settled (layer_in, merged_in; by the relations of eval_value_laws)
ghost use Rattle.std.specs.Prelude.{◌≤◌};
ghost use Rattle.eval_value_laws.specs.Clauses.{Asked, NodeIs, ObjectIs};

use crate::{fields_value, taken_value};
use codes::kinds;
use eval_groups::sources::members_from;
use eval_layers::Taken;
use eval_leaves::behind_head;
use eval_results::values::{Worked, headed};
use eval_writer::{Out, Source};

/// The value of a layer: finished, or a simple value, array or object of the document.
pub fn node_value(
    table: &[u16],
    bytes: &[u8],
    work: &mut [u16],
    room: &mut [u8],
    src: Source,
    top: usize,
    layer: usize,
    o: Out,
    levels: usize,
) -> Worked
    requires { Asked bytes.now src work.old top o room.old }
    ensures { NodeIs table.now bytes.now src top layer o levels work.old work.new result room.old room.new }
{
    let taken = Taken::One(layer);
    taken_value(table, bytes, work, room, src, top, taken, o, levels)
}

/// The object of those from one entry to another: "each key's value is taken in order of first appearance, lowest counted layer first".
pub fn object_value(
    table: &[u16],
    bytes: &[u8],
    work: &mut [u16],
    room: &mut [u8],
    src: Source,
    lo: usize,
    hi: usize,
    o: Out,
    levels: usize,
) -> Worked
    requires { Asked bytes.now src work.old hi o room.old × (lo ≤ hi) }
    ensures { ObjectIs table.now bytes.now src lo hi o levels work.old work.new result room.old room.new }
{
    let top = members_from(table, bytes, work, src, lo, hi);
    let inner = behind_head(o);
    let made = fields_value(table, bytes, work, room, src, hi, top, inner, levels);
    headed(room, o, kinds::OBJECT, made)
}

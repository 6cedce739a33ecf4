// The members of merged objects on a stack, grouped by key in one pass: the first member of a key links to the last, each other to the one
// before it. In front of the stack stands for each key number the place of its first member; nothing there is cleared, so what is left from
// before is told by a test.
// Computes: Layers (keys_in_order and deeper, by the model in specs/Model)
#![tactic(auto)]

pub mod select;
pub mod sources;

ghost use Rattle.std.specs.Prelude.{◌≤◌, ◌<◌};
ghost use Rattle.doc_items.specs.Room.{capacity, number_bound};
ghost use Rattle.eval_nodes.specs.Clauses.{Few};
ghost use Rattle.eval_nodes.specs.Model.{members_of};
ghost use Rattle.eval_stack.specs.Model.{entries, Work};
ghost use Rattle.eval_groups.specs.Model.{put_entry_c, join_group_c, begin_group_c, layer_members};
ghost use Rattle.eval_groups.specs.Clauses.{HoldsKeyIs, WorkIs, AddIs, AddMembersIs, MembersIs};

use eval_nodes::{Member, key_of};
use eval_stack::{ENTRIES, LINK, STACK, STRIDE, code_at, link_at};

// Whether p, which stands for the key number k in front of the stack, is a member with k.
fn holds_key(
    table: &[u16],
    records: &[u8],
    work: &[u16],
    base: usize,
    top: usize,
    k: usize,
    p: usize,
) -> bool
    requires { Few records.now × (p < number_bound) }
    ensures { HoldsKeyIs table.now records.now work.now base top k p result }
{
    if p < base {
        return false;
    }
    if p < top {
        let layer = code_at(work, p);
        let j = key_of(table, records, layer);
        return j == k;
    }
    false
}

// Writes an entry.
fn put_entry(work: &mut [u16], p: usize, layer: usize, link: usize)
    requires { Work work.old × (p < entries) × (layer < number_bound) × (link < number_bound) }
    ensures { WorkIs (put_entry_c p layer link) work.old work.new }
{
    work[STACK + STRIDE * p] = layer as u16;
    work[STACK + STRIDE * p + LINK] = link as u16;
}

// A member more, of the key whose first member is p: it is the last now.
fn join_group(work: &mut [u16], p: usize, top: usize, layer: usize)
    requires { Work work.old × (p < top) × (top < entries) × (layer < number_bound) }
    ensures { WorkIs (join_group_c p top layer) work.old work.new }
{
    let last = link_at(work, p);
    put_entry(work, top, layer, last);
    work[STACK + STRIDE * p + LINK] = top as u16;
}

// The first member of a key.
fn begin_group(work: &mut [u16], k: usize, top: usize, layer: usize)
    requires { Work work.old × (k < capacity) × (top < entries) × (layer < number_bound) }
    ensures { WorkIs (begin_group_c k top layer) work.old work.new }
{
    put_entry(work, top, layer, top);
    work[k] = top as u16;
}

// Adds a member to the group of its key, if there is room; the groups stand from base on.
fn add(
    table: &[u16],
    records: &[u8],
    work: &mut [u16],
    base: usize,
    top: usize,
    layer: usize,
) -> usize
    requires { Few records.now × Work work.old × (layer < number_bound) }
    ensures { AddIs table.now records.now base layer work.old top work.new result }
{
    if ENTRIES <= top {
        return top;
    }
    let k = key_of(table, records, layer);
    let p = doc_items::number_at(work, k);
    if holds_key(table, records, work, base, top, k, p) {
        join_group(work, p, top, layer);
        return top + 1;
    }
    begin_group(work, k, top, layer);
    top + 1
}

// Adds the members from one place up to another.
fn add_members(
    table: &[u16],
    records: &[u8],
    work: &mut [u16],
    base: usize,
    top: usize,
    from: usize,
    end: usize,
) -> usize
    requires { Few records.now × Work work.old }
    ensures { AddMembersIs table.now records.now base (members_of table.now records.now from end) work.old top work.new result }
{
    let mut at = from;
    let mut t = top;
    loop {
        match eval_nodes::member_at(table, records, at, end) {
            Member::End => {
                return t;
            }
            Member::Seam(next) => {
                at = next;
            }
            Member::At { layer, next } => {
                t = add(table, records, work, base, t, layer);
                at = next;
            }
        }
    }
}

// Adds the members of a layer.
fn add_layer(
    table: &[u16],
    records: &[u8],
    work: &mut [u16],
    base: usize,
    top: usize,
    layer: usize,
) -> usize
    requires { Few records.now × Work work.old }
    ensures { AddMembersIs table.now records.now base (layer_members table.now records.now layer) work.old top work.new result }
{
    match eval_nodes::view_of(table, records, layer) {
        None => top,
        Some(members) => add_members(table, records, work, base, top, members.first, members.end),
    }
}

/// The members of the objects from lo to hi, which stand there the last written first: from hi on, the lowest object's first, grouped by key.
pub fn members(table: &[u16], records: &[u8], work: &mut [u16], lo: usize, hi: usize) -> usize
    requires { Few records.now × Work work.old × (hi ≤ entries) }
    ensures { MembersIs table.now records.now lo hi work.old work.new result }
{
    let mut t = hi;
    for i in (lo..hi).rev() {
        let layer = code_at(work, i);
        t = add_layer(table, records, work, hi, t, layer);
    }
    t
}

// Layers on the stack. The layers of a path stand on it one above the other, the last written on top; one key deeper they stand above
// them. All are walked at once: the answers do not change meanwhile, and a mark says where a missing one ended the walk. Keys are numbers.
// The layers one key deeper than those of a part of the stack.
// Computes: Layers (gather, deeper; by the model in specs/Model)
#![tactic(auto)]

ghost use Rattle.std.specs.Prelude.{◌≡◌, ◌<◌, ◌-◌};
ghost use Rattle.doc_items.specs.Room.{number_bound};
ghost use Rattle.eval_nodes.specs.Clauses.{Few};
ghost use Rattle.eval_nodes.specs.Model.{members_of, view_at};
ghost use Rattle.eval_stack.specs.Model.{entries};
ghost use Rattle.eval_stack.specs.Clauses.{Stack, Segment};
ghost use Rattle.eval_layers.specs.Model.{push_layer_c, push_named_c, push_members_c, of_other_c, of_end_c, inside_by};
ghost use Rattle.eval_layers.specs.Clauses.{walked, WalkedIs, GatherIs, DeeperIs};

use eval_nodes::Member;
use eval_nodes::answer::Answered;
use eval_stack::{code_at, push};

/// Layers on the stack: how far they go, and the question whose missing answer ended their walk, if one did.
#[derive(Clone, Copy)]
pub struct Walked {
    pub top: usize,
    pub stuck: Option<usize>,
}

/// Layers between two places of the stack, and the question whose missing answer ended their walk, if one did.
#[derive(Clone, Copy)]
pub struct Part {
    pub lo: usize,
    pub hi: usize,
    pub stuck: Option<usize>,
}

/// What layers come to.
#[derive(Clone, Copy)]
pub enum Taken {
    /// There is none.
    Nothing,
    /// The topmost, which is no object.
    One(usize),
    /// The answer of this question is needed first.
    Needs(usize),
    /// The merge of objects: they stand on the stack up to here, the last written first.
    Merged(usize),
}

/// Lays a node above the layers from base on.
pub fn push_layer(
    table: &[u16],
    work: &mut [u16],
    base: usize,
    walk: Walked,
    layer: usize,
) -> Walked
    requires { Stack base walk.top work.old × (layer < number_bound) }
    ensures { WalkedIs base work.old work.new result (push_layer_c table.now (entries - base) layer
        (walked work.old base walk)) }
{
    match eval_nodes::layer_of(table, layer) {
        Answered::Layer(d) => {
            let top = push(work, walk.top, d);
            Walked { top, ..walk }
        }
        Answered::Undefined => walk,
        Answered::Missing(b) => Walked {
            top: base,
            stuck: Some(b),
        },
    }
}

// Lays a member, if it has the key.
fn push_named(
    table: &[u16],
    records: &[u8],
    work: &mut [u16],
    base: usize,
    walk: Walked,
    key: usize,
    layer: usize,
) -> Walked
    requires { Few records.now × Stack base walk.top work.old × (layer < number_bound) }
    ensures { WalkedIs base work.old work.new result (push_named_c table.now records.now key
        (entries - base) layer (walked work.old base walk)) }
{
    if eval_nodes::key_of(table, records, layer) == key {
        return push_layer(table, work, base, walk, layer);
    }
    walk
}

/// Lays the members with a key, of those from one place up to another.
pub fn push_members_named(
    table: &[u16],
    records: &[u8],
    work: &mut [u16],
    base: usize,
    walk: Walked,
    key: usize,
    from: usize,
    end: usize,
) -> Walked
    requires { Few records.now × Stack base walk.top work.old }
    ensures { WalkedIs base work.old work.new result (push_members_c table.now records.now key
        (entries - base) (members_of table.now records.now from end) (walked work.old base walk)) }
{
    let mut at = from;
    let mut t = walk;
    loop {
        match eval_nodes::member_at(table, records, at, end) {
            Member::End => {
                return t;
            }
            Member::Seam(next) => {
                at = next;
            }
            Member::At { layer, next } => {
                t = push_named(table, records, work, base, t, key, layer);
                at = next;
            }
        }
    }
}

/// What a layer that is no object comes to below the objects from base to top.
pub fn of_other(layer: usize, base: usize, top: usize) -> Taken
    ensures { result ≡ of_other_c layer base top }
{
    if base == top {
        return Taken::One(layer);
    }
    Taken::Merged(top)
}

/// What the end of the layers comes to below the objects from base to top.
pub fn of_end(stuck: Option<usize>, base: usize, top: usize) -> Taken
    ensures { result ≡ of_end_c stuck base top }
{
    match stuck {
        Some(b) => Taken::Needs(b),
        None => {
            if base == top {
                return Taken::Nothing;
            }
            Taken::Merged(top)
        }
    }
}

/// What the layers of a part come to, from the top on; the objects that count are pushed above the part, the last written first.
pub fn gather(table: &[u16], records: &[u8], work: &mut [u16], part: Part) -> Taken
    requires { Few records.now × Stack part.lo part.hi work.old }
    ensures { GatherIs table.now records.now part.lo part.hi part.stuck work.old
        work.new result }
{
    let hi = part.hi;
    let mut top = hi;
    for i in (part.lo..hi).rev() {
        let layer = code_at(work, i);
        match eval_nodes::view_of(table, records, layer) {
            None => {
                return of_other(layer, hi, top);
            }
            Some(members) => {
                top = push(work, top, layer);
            }
        }
    }
    of_end(part.stuck, hi, top)
}

// One layer, above what those below it gave.
fn inside(
    table: &[u16],
    records: &[u8],
    work: &mut [u16],
    base: usize,
    walk: Walked,
    key: usize,
    layer: usize,
) -> Walked
    requires { Few records.now × Stack base walk.top work.old }
    ensures { WalkedIs base work.old work.new result (inside_by table.now records.now key
        (entries - base) (walked work.old base walk) (view_at table.now records.now layer)) }
{
    match eval_nodes::view_of(table, records, layer) {
        None => Walked {
            top: base,
            stuck: None,
        },
        Some(members) => push_members_named(
            table,
            records,
            work,
            base,
            walk,
            key,
            members.first,
            members.end,
        ),
    }
}

/// The layers one key deeper, from base on, of the layers of a part.
pub fn deeper(
    table: &[u16],
    records: &[u8],
    work: &mut [u16],
    part: Part,
    base: usize,
    key: usize,
) -> Walked
    requires { Few records.now × Segment part.lo part.hi base work.old }
    ensures { DeeperIs table.now records.now part.lo part.hi part.stuck base key
        work.old work.new result }
{
    let mut walk = Walked {
        top: base,
        stuck: part.stuck,
    };
    for i in part.lo..part.hi {
        let layer = code_at(work, i);
        walk = inside(table, records, work, base, walk, key, layer);
    }
    walk
}

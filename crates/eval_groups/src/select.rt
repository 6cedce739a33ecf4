// What the layers of one key come to, along the links of its group: from the last member to the first, each one's answer asked only then. So
// a key may be taken again after an answer has come, and the groups stay right.
// Computes: Layers (gather, by the model in specs/Model)
ghost use Rattle.std.specs.Prelude.{◌≤◌, ◌<◌};
ghost use Rattle.doc_items.specs.Room.{number_bound};
ghost use Rattle.eval_nodes.specs.Clauses.{Few};
ghost use Rattle.eval_stack.specs.Model.{entries, Work};
ghost use Rattle.eval_stack.specs.Clauses.{Stack};
ghost use Rattle.eval_groups.specs.Select.Contracts.{LayerSeenIs, SeenIs, FollowIs, DescentIs, TakeIs};

use eval_layers::{Taken, of_end, of_other};
use eval_nodes::answer::Answered;
use eval_stack::{code_at, link_at, push};

// What a member shows.
#[derive(Clone, Copy)]
enum Seen {
    /// Its answer is undefined.
    Undefined,
    /// Its answer is missing.
    Missing(usize),
    /// A layer that is no object.
    Other(usize),
    /// An object.
    Object(usize),
}

// One member down a group.
#[derive(Clone, Copy)]
enum Descent {
    /// How far the objects go on the stack, and where the member before stands.
    More { top: usize, at: usize },
    /// What all members come to.
    End(Taken),
}

// What a layer shows that is no unresolved value.
fn look_layer(table: &[u16], records: &[u8], layer: usize) -> Seen
    requires { Few records.now }
    ensures { LayerSeenIs table.now records.now layer result }
{
    match eval_nodes::view_of(table, records, layer) {
        None => Seen::Other(layer),
        Some(members) => Seen::Object(layer),
    }
}

// What a member shows.
fn look(table: &[u16], records: &[u8], layer: usize) -> Seen
    requires { Few records.now }
    ensures { SeenIs table.now records.now layer result }
{
    match eval_nodes::layer_of(table, layer) {
        Answered::Layer(d) => look_layer(table, records, d),
        Answered::Undefined => Seen::Undefined,
        Answered::Missing(b) => Seen::Missing(b),
    }
}

// The member before the one at q. Links fall up to the first member, whose link rises to the last.
fn follow(work: &[u16], base: usize, top: usize, q: usize) -> Descent
    requires { q < number_bound }
    ensures { FollowIs work.now base top q result }
{
    let next = link_at(work, q);
    if next < q {
        return Descent::More { top, at: next };
    }
    let taken = of_end(None, base, top);
    Descent::End(taken)
}

// The member at q: an object is pushed above those from base on.
fn descend(
    table: &[u16],
    records: &[u8],
    work: &mut [u16],
    base: usize,
    top: usize,
    q: usize,
) -> Descent
    requires { Few records.now × Stack base top work.old × (q < base) }
    ensures { DescentIs table.now records.now base work.old top q work.new result }
{
    let layer = code_at(work, q);
    match look(table, records, layer) {
        Seen::Undefined => follow(work, base, top, q),
        Seen::Missing(b) => Descent::End(Taken::Needs(b)),
        Seen::Other(d) => {
            let taken = of_other(d, base, top);
            Descent::End(taken)
        }
        Seen::Object(d) => {
            let t = push(work, top, d);
            follow(work, base, t, q)
        }
    }
}

/// What the layers of one key come to, whose first member stands at `first` below the top; the objects stand from the top on, the last written
/// first. The walk ends, whatever the links are.
pub fn take(table: &[u16], records: &[u8], work: &mut [u16], first: usize, top: usize) -> Taken
    requires { Few records.now × Work work.old × (first < number_bound) × (top ≤ entries) }
    ensures { TakeIs table.now records.now first top work.old work.new result }
{
    let mut q = link_at(work, first);
    if top <= q {
        return Taken::Nothing;
    }
    let mut t = top;
    loop {
        match descend(table, records, work, top, t, q) {
            Descent::End(taken) => {
                return taken;
            }
            Descent::More { top: u, at } => {
                t = u;
                q = at;
            }
        }
    }
}

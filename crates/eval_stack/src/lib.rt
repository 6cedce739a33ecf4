// The slice in which layers are walked: for each key number a place on the stack, then the stack itself, whose entries are two numbers, a
// layer and a link to another entry. A picture stands at the head of `specs/Model`.
//
// Computes: nothing of the rules.
#![tactic(auto)]

ghost use Rattle.std.specs.Prelude.{◌<◌, ◌≤◌};
ghost use Rattle.doc_items.specs.Room.{number_bound};
ghost use Rattle.eval_stack.specs.Model.{entries, Work};
ghost use Rattle.eval_stack.specs.Clauses.{CodeIs, LinkIs, PushIs};

use doc_items::{CAPACITY, number_at};

/// Where the stack begins, behind a number for each key number.
pub const STACK: usize = CAPACITY;

/// How many numbers an entry has: its layer and its link.
pub const STRIDE: usize = 2;

/// Which of them is the link.
pub const LINK: usize = 1;

/// How many entries the stack has.
pub const ENTRIES: usize = 32768;

/// How many numbers there are in all.
pub const WORK: usize = STACK + STRIDE * ENTRIES;

/// The layer of an entry.
pub fn code_at(work: &[u16], p: usize) -> usize
    requires { p < number_bound }
    ensures { CodeIs work.now p result }
{
    number_at(work, STACK + STRIDE * p)
}

/// The link of an entry.
pub fn link_at(work: &[u16], p: usize) -> usize
    requires { p < number_bound }
    ensures { LinkIs work.now p result }
{
    number_at(work, STACK + STRIDE * p + LINK)
}

/// Pushes a layer, if there is room. One without room would be dropped; that never happens in a job, whose stack has room for what all its
/// layers weigh (the rules' theory, `Room`), and the model says of each walk what it does to a stack of any height.
pub fn push(work: &mut [u16], top: usize, layer: usize) -> usize
    requires { Work work.old × (top ≤ entries) × (layer < number_bound) }
    ensures { PushIs top layer work.old work.new result }
{
    if top < ENTRIES {
        work[STACK + STRIDE * top] = layer as u16;
        return top + 1;
    }
    top
}

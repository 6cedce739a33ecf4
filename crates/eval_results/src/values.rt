// What a value comes to against the answers so far, and what the members of an array or object come to.
// Computes: Settled (by the relations in specs/Comes)
ghost use Rattle.std.specs.Prelude.{◌≤◌};
ghost use Rattle.eval_writer.specs.Clauses.{Room};
ghost use Rattle.eval_results.specs.Extents.Contracts.{far, NotPast};
ghost use Rattle.eval_results.specs.Values.Contracts.{OneMoreIs, MadeWithin, HeadedIs};

use crate::extents::{Extent, clip, length_inside, with_more};
use eval_writer::{Out, put_head};

/// What a value comes to.
#[derive(Clone, Copy)]
pub enum Worked {
    /// It is written so far.
    Done(Extent),
    /// It is undefined, and nothing is written.
    Undefined,
    /// The answer of this question is needed first.
    Needs(usize),
}

/// What members come to that are written one behind the other.
#[derive(Clone, Copy)]
pub enum Made {
    /// How many there are, and how far they are written.
    Done { count: usize, extent: Extent },
    /// The answer of this question is needed first.
    Needs(usize),
}

/// One member more, if it is defined: "An undefined element or field is not made."
pub fn one_more(count: usize, before: Extent, v: Worked) -> Made
    requires { count ≤ far }
    ensures { OneMoreIs count before v result }
{
    match v {
        Worked::Needs(b) => Made::Needs(b),
        Worked::Undefined => Made::Done {
            count,
            extent: before,
        },
        Worked::Done(m) => Made::Done {
            count: count + 1,
            extent: with_more(before, m),
        },
    }
}

/// An array or object whose members are written: its head goes before them.
pub fn headed(room: &mut [u8], o: Out, kind: u8, made: Made) -> Worked
    requires { Room room.old × NotPast o × MadeWithin made }
    ensures { HeadedIs o kind made result room.old room.new }
{
    match made {
        Made::Needs(b) => Worked::Needs(b),
        Made::Done { count, extent } => {
            let out = extent.out;
            put_head(room, o.rec, kind, length_inside(o, out));
            Worked::Done(clip(out, extent.deep + 1))
        }
    }
}

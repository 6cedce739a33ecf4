// Two finished objects merged: they stand kept as a pair in a job's bytes and are merged as two layers.
// Computes: Values (merge_members)
ghost use Rattle.std.specs.Prelude.{◌≤◌};
ghost use Rattle.eval_stack.specs.Model.{entries, Work};
ghost use Rattle.eval_concat_objects.specs.Pair.Contracts.{PushedIs, MergeAsked, MergeIs};

use codes::limits;
use doc_items::CAPACITY;
use eval_results::extents::Extent;
use eval_results::values::Worked;
use eval_stack::push;
use eval_state::{PAIR_RECORDS, PAIR_TEXTS};
use eval_values::LEVELS;
use eval_values::objects::object_value;
use eval_writer::{Out, Source};
use text_chars::{RecAt, TextAt};

// The second of the pair, then the first: the last written first.
fn push_pair(work: &mut [u16], base: usize) -> usize
    requires { Work work.old × (base ≤ entries) }
    ensures { PushedIs base work.old work.new result }
{
    let one = push(work, base, CAPACITY + limits::RECORDS);
    push(work, one, CAPACITY)
}

/// The second of the pair over the first, into the room. The stack is free from base on.
pub fn merge(table: &[u16], bytes: &[u8], work: &mut [u16], base: usize, room: &mut [u8]) -> Extent
    requires { MergeAsked bytes.now work.old base room.old }
    ensures { MergeIs table.now bytes.now base work.old work.new result room.old
        room.new }
{
    let hi = push_pair(work, base);
    let pair = Source {
        rec: RecAt(PAIR_RECORDS),
        text: TextAt(PAIR_TEXTS),
    };
    let start = Out {
        rec: RecAt(0),
        text: TextAt(0),
    };
    match object_value(table, bytes, work, room, pair, base, hi, start, LEVELS) {
        Worked::Done(e) => e,
        Worked::Undefined => Extent {
            out: start,
            deep: 0,
        },
        Worked::Needs(b) => Extent {
            out: start,
            deep: 0,
        },
    }
}

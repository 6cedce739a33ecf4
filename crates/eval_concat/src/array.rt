// A piece that is an array joined: its elements stand behind those of the join.
// Computes: Unresolved (join_piece)
ghost use Rattle.std.specs.Prelude.{◌≡◌, ◌≤◌, ◌<◌};
ghost use Rattle.doc_items.specs.Room.{number_bound};
ghost use Rattle.eval_concat.specs.Model.{piece_c};
ghost use Rattle.eval_concat.specs.Clauses.{farthest, NearKind, SizeAsked, MembersAsked, MembersAddedIs, MembersJoinedIs};

use crate::{Join, Kind, mixed, tested, too_large};
use eval_results::extents::Extent;
use eval_results::sizes::is_within;
use eval_writer::Out;
use sheet_forms::HEAD;
use text_chars::{RecAt, Refusal, TextAt};

// The size of an array alone whose elements were written from one place to another.
fn array_size(from: Out, r: Extent) -> Extent
    requires { SizeAsked from r }
    ensures { result ≡ piece_c from r }
{
    Extent {
        out: Out {
            rec: RecAt(r.out.rec.0 - from.rec.0 + HEAD),
            text: TextAt(r.out.text.0 - from.text.0),
        },
        deep: r.deep + 1,
    }
}

// The join with n elements more, of which the deepest is nested so deep.
fn add_members(table: &[u16], j: Join, n: usize, r: Extent, i: usize) -> Result<Join, Refusal>
    requires { NearKind j.kind × (n ≤ farthest) × (r.deep ≤ farthest) × (i < number_bound) }
    ensures { MembersAddedIs table.now i j n r result }
{
    let deep = r.deep + 1;
    match j.kind {
        Kind::Simple => Err(mixed(table, i)),
        Kind::Object => Err(mixed(table, i)),
        Kind::Blank => tested(Join {
            kind: Kind::Array { count: n },
            extent: Extent { deep, ..r },
        }),
        Kind::Array { count } => tested(Join {
            kind: Kind::Array { count: count + n },
            extent: Extent {
                deep: j.extent.deep.max(deep),
                ..r
            },
        }),
    }
}

/// An array of n elements, written from one place to another: its size, its kind, then the size of the join.
pub fn join_members(
    table: &[u16],
    j: Join,
    from: Out,
    n: usize,
    r: Extent,
    i: usize,
) -> Result<Join, Refusal>
    requires { MembersAsked j from n r i }
    ensures { MembersJoinedIs table.now i j from n r result }
{
    if !is_within(array_size(from, r)) {
        return Err(too_large());
    }
    add_members(table, j, n, r, i)
}

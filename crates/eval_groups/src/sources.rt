// Members and layers as they are looked at where a source has the finished values: its records are a part of the job's bytes.
// Computes: Layers (by the models of the crates below)
ghost use Rattle.std.specs.Prelude.{◌≤◌, ◌<◌};
ghost use Rattle.doc_items.specs.Room.{number_bound};
ghost use Rattle.eval_nodes.specs.Clauses.{KeyIs, MemberIs};
ghost use Rattle.eval_stack.specs.Model.{entries, Work, code_at};
ghost use Rattle.eval_groups.specs.Clauses.{MembersIs};
ghost use Rattle.eval_groups.specs.Select.Contracts.{TakeIs};
ghost use Rattle.eval_writer.specs.Copies.Sources.{SourceIn, records_of};

use crate::members;
use crate::select::take;
use codes::limits;
use eval_layers::Taken;
use eval_nodes::{Member, key_of, member_at};
use eval_stack::code_at;
use eval_writer::Source;

/// The key number of the member at an entry of the stack.
pub fn entry_key(table: &[u16], bytes: &[u8], work: &[u16], src: Source, p: usize) -> usize
    requires { SourceIn bytes.now src × (p < number_bound) }
    ensures { KeyIs table.now (records_of bytes.now src) (code_at work.now p) result }
{
    let from = src.rec.0;
    let end = from + limits::ROOM;
    let layer = code_at(work, p);
    key_of(table, &bytes[from..end], layer)
}

/// The element at p of an array of the document whose elements go up to e.
pub fn element_at(table: &[u16], bytes: &[u8], src: Source, p: usize, e: usize) -> Member
    requires { SourceIn bytes.now src }
    ensures { MemberIs table.now (records_of bytes.now src) p e result }
{
    let from = src.rec.0;
    let end = from + limits::ROOM;
    member_at(table, &bytes[from..end], p, e)
}

/// The members of the objects from lo to hi, grouped by key from hi on.
pub fn members_from(
    table: &[u16],
    bytes: &[u8],
    work: &mut [u16],
    src: Source,
    lo: usize,
    hi: usize,
) -> usize
    requires { SourceIn bytes.now src × Work work.old × (hi ≤ entries) }
    ensures { MembersIs table.now (records_of bytes.now src) lo hi work.old work.new result }
{
    let from = src.rec.0;
    let end = from + limits::ROOM;
    members(table, &bytes[from..end], work, lo, hi)
}

/// What the layers of one key come to, whose first member stands at `first`.
pub fn take_from(
    table: &[u16],
    bytes: &[u8],
    work: &mut [u16],
    src: Source,
    first: usize,
    top: usize,
) -> Taken
    requires { SourceIn bytes.now src × Work work.old × (first < number_bound) × (top ≤ entries) }
    ensures { TakeIs table.now (records_of bytes.now src) first top work.old work.new result }
{
    let from = src.rec.0;
    let end = from + limits::ROOM;
    take(table, &bytes[from..end], work, first, top)
}

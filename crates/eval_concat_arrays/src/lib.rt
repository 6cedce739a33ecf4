// A piece that is one layer, no object, joined to the pieces before it: an array's elements, or the text of a simple value.
// Computes: Unresolved (join_piece), of what layer_value gives for such a layer
#![tactic(auto)]

pub mod elements;

ghost use Rattle.std.specs.Prelude.{◌≤◌};
ghost use Rattle.doc_items.specs.Room.{capacity};
ghost use Rattle.eval_concat.specs.Clauses.{GapAsked};
ghost use Rattle.eval_concat.specs.Model.{text_of};
ghost use Rattle.eval_concat.specs.Steps.Contracts.{JoinAsked};
ghost use Rattle.eval_stack.specs.Model.{entries};
ghost use Rattle.eval_concat_arrays.specs.Clauses.{RecordAtIs, ArrayTold, JoinableIs, ElementsAsked, ElementsJoinedIs, SimpleIs, ArrayJoinedIs, OneJoinedIs};

use crate::elements::array_elements;
use codes::{kinds, limits};
use doc_items::{CAPACITY, PIECE, WIDTH, number_at};
use eval_concat::array::join_members;
use eval_concat::scalar::{join_item, join_record};
use eval_concat::steps::JoinStep;
use eval_concat::{Join, array_start, too_large};
use eval_results::extents::Extent;
use eval_results::values::Made;
use eval_writer::{Out, Source};
use sheet_forms::kind_at;
use text_chars::{RecAt, Refusal, TextAt};

// ---- decisions

// Where the finished value that a layer is has its record among the answers'; no offset is past their room.
fn record_at(layer: usize) -> RecAt
    requires { capacity ≤ layer }
    ensures { RecordAtIs layer result.0 }
{
    let at = layer - CAPACITY;
    if limits::ROOM < at {
        return RecAt(0);
    }
    RecAt(at)
}

// Whether a layer is an array: by its item's kind, whatever its role, or by its record's first byte.
fn is_array(table: &[u16], bytes: &[u8], layer: usize) -> bool
    ensures { ArrayTold table.now bytes.now layer result }
{
    if layer < CAPACITY {
        return number_at(table, WIDTH * layer) % PIECE == doc_items::ARRAY;
    }
    let at = record_at(layer);
    kind_at(bytes, RecAt(doc_items::TRAIL + at.0)) == kinds::ARRAY
}

// Whether elements end behind where they began, and are no more than a value's records have bytes.
fn is_joinable(from: Out, count: usize, end: Extent) -> bool
    ensures { JoinableIs from count end result }
{
    from.rec.0 <= end.out.rec.0 && from.text.0 <= end.out.text.0 && count <= limits::RECORDS
}

// ---- arrays

// The elements of an array, written from one place on, behind the join. More of them than a value has room for are over its size.
fn join_elements(
    table: &[u16],
    from: Out,
    made: Made,
    j: Join,
    i: usize,
) -> Result<JoinStep, Refusal>
    requires { ElementsAsked made i j }
    ensures { ElementsJoinedIs table.now i j from made result }
{
    match made {
        Made::Needs(b) => Ok(JoinStep::Needs(b)),
        Made::Done { count, extent } => {
            if !is_joinable(from, count, extent) {
                return Err(too_large());
            }
            let joined = join_members(table, j, from, count, extent, i)?;
            Ok(JoinStep::So(joined))
        }
    }
}

// A layer that is an array.
fn join_array(
    table: &[u16],
    bytes: &[u8],
    work: &mut [u16],
    base: usize,
    room: &mut [u8],
    top: usize,
    layer: usize,
    j: Join,
    i: usize,
) -> Result<JoinStep, Refusal>
    requires { JoinAsked bytes.now work.old room.old base i j × (base ≤ top) × (top ≤ entries) }
    ensures { ArrayJoinedIs table.now base i top layer j work.old work.new bytes.now
        room.old room.new result }
{
    let from = array_start(j);
    let made = array_elements(table, bytes, work, room, top, layer, from);
    join_elements(table, from, made, j, i)
}

// ---- simple values

// A layer that is a simple value, of the document or finished.
fn join_simple(
    room: &mut [u8],
    table: &[u16],
    bytes: &[u8],
    layer: usize,
    j: Join,
    i: usize,
) -> Result<Join, Refusal>
    requires { GapAsked room.old (text_of j) i }
    ensures { SimpleIs table.now bytes.now i layer j room.old room.new result }
{
    if layer < CAPACITY {
        return join_item(room, table, bytes, layer, j, i);
    }
    let at = record_at(layer);
    let answers = Source {
        rec: RecAt(doc_items::TRAIL),
        text: TextAt(doc_items::SHEET),
    };
    join_record(room, table, bytes, answers, at, j, i)
}

// ---- either

/// A layer that counts alone, joined as the piece at item i. The stack is free from top on.
pub fn join_one(
    table: &[u16],
    bytes: &[u8],
    work: &mut [u16],
    base: usize,
    room: &mut [u8],
    top: usize,
    layer: usize,
    j: Join,
    i: usize,
) -> Result<JoinStep, Refusal>
    requires { JoinAsked bytes.now work.old room.old base i j × (base ≤ top) × (top ≤ entries) }
    ensures { OneJoinedIs table.now base i top layer j work.old work.new bytes.now
        room.old room.new result }
{
    if is_array(table, bytes, layer) {
        return join_array(table, bytes, work, base, room, top, layer, j, i);
    }
    let joined = join_simple(room, table, bytes, layer, j, i)?;
    Ok(JoinStep::So(joined))
}

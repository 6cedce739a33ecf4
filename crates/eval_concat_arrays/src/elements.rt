// The elements of an array without its head, as a join of arrays takes them: of the document, or of a finished array.
// Computes: Settled (elements_in), Unresolved (join_value: the elements that are joined)
ghost use Rattle.eval_concat_arrays.specs.Elements.Contracts.{FinishedAsked, FinishedIs, ArrayAsked, ArrayIs};

use codes::limits;
use doc_items::CAPACITY;
use eval_copy::copy_members;
use eval_results::extents::{Extent, clip};
use eval_results::values::Made;
use eval_values::{LEVELS, elements_value};
use eval_writer::copies::Copied;
use eval_writer::{Out, Source};
use sheet_forms::{HEAD, count_members};
use text_chars::{RecAt, TextAt};

// The elements of the finished array whose record is at an offset among the answers'.
fn finished_elements(room: &mut [u8], table: &[u16], bytes: &[u8], at: usize, o: Out) -> Made
    requires { FinishedAsked bytes.now o room.old }
    ensures { FinishedIs table.now bytes.now at o result room.old room.new }
{
    if limits::ROOM < at {
        return Made::Done {
            count: 0,
            extent: Extent { out: o, deep: 0 },
        };
    }
    let p = doc_items::TRAIL + at;
    let count = count_members(bytes, RecAt(p));
    let first = Copied {
        next: RecAt(p + HEAD),
        out: o,
        deep: 0,
    };
    let texts = TextAt(doc_items::SHEET);
    let c = copy_members(
        room,
        table,
        bytes,
        texts,
        false,
        count,
        first,
        limits::NESTING,
    );
    let out = c.out;
    Made::Done {
        count,
        extent: clip(out, c.deep),
    }
}

/// The elements of the array that a layer is, from o on. The stack is free from top on.
pub fn array_elements(
    table: &[u16],
    bytes: &[u8],
    work: &mut [u16],
    room: &mut [u8],
    top: usize,
    layer: usize,
    o: Out,
) -> Made
    requires { ArrayAsked bytes.now work.old top o room.old }
    ensures { ArrayIs table.now bytes.now top layer o work.old work.new result room.old
        room.new }
{
    if CAPACITY <= layer {
        return finished_elements(room, table, bytes, layer - CAPACITY, o);
    }
    let answers = Source {
        rec: RecAt(doc_items::TRAIL),
        text: TextAt(doc_items::SHEET),
    };
    elements_value(table, bytes, work, room, answers, top, layer, o, LEVELS)
}

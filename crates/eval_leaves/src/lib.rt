// Values that need no others: a simple value of the document by its item, a finished value as a whole; and a key before its value.
// Computes: Settled (node_in of a simple value, layer_in of a finished one), Sheet
#![tactic(auto)]

ghost use Rattle.std.specs.Prelude.{◌+◌, ◌<◌, ◌≤◌};
ghost use Rattle.doc_items.specs.Room.{capacity};
ghost use Rattle.eval_copy.specs.Clauses.{CopyAsked, CopyIs};
ghost use Rattle.eval_writer.specs.Clauses.{Room, NearOut, longest_text};
ghost use Rattle.eval_writer.specs.Building.{inside};
ghost use Rattle.eval_results.specs.Extents.Contracts.{NotPast, ClipOutIs};
ghost use Rattle.eval_leaves.specs.Clauses.{SimpleIs, SimpleValueIs, FinishedAsked, FinishedIs, KeyBeforeIs};

use codes::{kinds, limits};
use doc_items::{COLUMN_TEXT, COLUMN_TEXTLEN, PIECE, WIDTH, number_at};
use eval_copy::copy_value;
use eval_results::extents::{clip, clip_out};
use eval_results::values::Worked;
use eval_writer::copies::Copied;
use eval_writer::{Out, Source, put_key, put_plain, put_string};
use sheet_forms::HEAD;
use text_chars::{RecAt, TextAt, TextLen};

// Writes the simple value of an item, be it a member or a piece. Of any other item some record.
fn put_simple(room: &mut [u8], table: &[u16], bytes: &[u8], item: usize, o: Out) -> Out
    requires { Room room.old × NearOut o × (item < capacity) }
    ensures { SimpleIs table.now bytes.now item o result room.old room.new }
{
    let kind = number_at(table, WIDTH * item) % PIECE;
    if kind == doc_items::NULL {
        return put_plain(room, kinds::NULL, o);
    }
    if kind == doc_items::FALSE {
        return put_plain(room, kinds::FALSE, o);
    }
    if kind == doc_items::TRUE {
        return put_plain(room, kinds::TRUE, o);
    }
    let at = number_at(table, WIDTH * item + COLUMN_TEXT);
    let n = number_at(table, WIDTH * item + COLUMN_TEXTLEN);
    if kind == doc_items::NUMBER {
        return put_string(room, bytes, kinds::NUMBER, TextAt(at), TextLen(n), o);
    }
    put_string(room, bytes, kinds::STRING, TextAt(at), TextLen(n), o)
}

/// The simple value of an item.
pub fn simple_value(room: &mut [u8], table: &[u16], bytes: &[u8], item: usize, o: Out) -> Worked
    requires { Room room.old × NotPast o × (item < capacity) }
    ensures { SimpleValueIs table.now bytes.now item o result room.old room.new }
{
    let out = put_simple(room, table, bytes, item, o);
    let e = clip(out, 0);
    Worked::Done(e)
}

// Copies a finished value: its record is at an offset of the source's records.
fn copy_finished(
    room: &mut [u8],
    table: &[u16],
    bytes: &[u8],
    src: Source,
    at: RecAt,
    o: Out,
) -> Copied
    requires { CopyAsked bytes.now src at.0 o room.old }
    ensures { CopyIs table.now bytes.now src.text.0 (src.rec.0 + at.0) o result
        room.old room.new }
{
    let rec = src.rec;
    let texts = src.text;
    let p = rec.0 + at.0;
    copy_value(room, table, bytes, texts, RecAt(p), o, limits::NESTING)
}

/// A finished value, copied with all that is in it: its record is at an offset of the source's records.
pub fn finished_value(
    room: &mut [u8],
    table: &[u16],
    bytes: &[u8],
    src: Source,
    at: usize,
    o: Out,
) -> Worked
    requires { FinishedAsked bytes.now src o room.old }
    ensures { FinishedIs table.now bytes.now src at o result room.old room.new }
{
    if limits::ROOM < at {
        return Worked::Undefined;
    }
    let c = copy_finished(room, table, bytes, src, RecAt(at), o);
    let out = c.out;
    let e = clip(out, c.deep);
    Worked::Done(e)
}

/// A key by its number; its value goes behind it.
pub fn key_before(room: &mut [u8], table: &[u16], bytes: &[u8], k: usize, o: Out) -> Out
    requires { Room room.old × NotPast o × (k ≤ longest_text) }
    ensures { KeyBeforeIs table.now bytes.now k o result room.old room.new }
{
    let p = put_key(room, table, bytes, k, o);
    clip_out(p)
}

/// Where the members of an array or object begin whose head is at o.
pub fn behind_head(o: Out) -> Out
    requires { NotPast o }
    ensures { ClipOutIs (inside o) result }
{
    let rec = o.rec;
    let text = o.text;
    clip_out(Out {
        rec: RecAt(rec.0 + HEAD),
        text,
    })
}

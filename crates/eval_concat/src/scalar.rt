// A simple value as a piece of a join: its text, "numbers as written", where the document has it or where a finished value is kept.
// Computes: Unresolved (join_piece), Pieces (scalar_text)
ghost use Rattle.std.specs.Prelude.{◌+◌, ◌≤◌, ◌<◌};
ghost use Rattle.doc_items.specs.Room.{number_bound};
ghost use Rattle.eval_writer.specs.Clauses.{Near, longest_text};
ghost use Rattle.eval_writer.specs.Copies.Contracts.{most_bytes};
ghost use Rattle.eval_concat.specs.Model.{text_of};
ghost use Rattle.eval_concat.specs.Clauses.{GapAsked};
ghost use Rattle.eval_concat.specs.Scalar.Contracts.{WordJoinedIs, ItemJoinedIs, RecordJoinedIs};

use crate::Join;
use crate::text::join_text;
use codes::kinds;
use doc_items::{COLUMN_TEXT, COLUMN_TEXTLEN, WIDTH, number_at};
use eval_writer::Source;
use sheet_forms::{kind_at, pair_at};
use text_chars::{RecAt, Refusal, TextAt, TextLen};

// The text at a place of a job's bytes; one that does not lie in them is empty.
fn join_word(
    room: &mut [u8],
    table: &[u16],
    bytes: &[u8],
    at: TextAt,
    len: TextLen,
    j: Join,
    i: usize,
) -> Result<Join, Refusal>
    requires { GapAsked room.old (text_of j) i × Near at.0 × (len.0 ≤ longest_text) }
    ensures { WordJoinedIs table.now bytes.now i at.0 len.0 j room.old room.new result }
{
    let f = at.0;
    let e = f + len.0;
    if bytes.len() < e {
        return join_text(room, table, bytes, &bytes[0..0], j, i);
    }
    join_text(room, table, bytes, &bytes[f..e], j, i)
}

/// The simple value of the document at item c, as the piece at item i.
pub fn join_item(
    room: &mut [u8],
    table: &[u16],
    bytes: &[u8],
    c: usize,
    j: Join,
    i: usize,
) -> Result<Join, Refusal>
    requires { GapAsked room.old (text_of j) i × (c < number_bound) }
    ensures { ItemJoinedIs table.now bytes.now i c j room.old room.new result }
{
    let at = number_at(table, WIDTH * c + COLUMN_TEXT);
    let len = number_at(table, WIDTH * c + COLUMN_TEXTLEN);
    join_word(room, table, bytes, TextAt(at), TextLen(len), j, i)
}

/// The simple value that is kept at an offset of the source's records, as the piece at item i.
pub fn join_record(
    room: &mut [u8],
    table: &[u16],
    bytes: &[u8],
    src: Source,
    at: RecAt,
    j: Join,
    i: usize,
) -> Result<Join, Refusal>
    requires { GapAsked room.old (text_of j) i × (src.rec.0 + at.0 ≤ most_bytes) × (src.text.0 ≤ most_bytes) }
    ensures { RecordJoinedIs table.now bytes.now i src.text.0 (src.rec.0 + at.0) j
        room.old room.new result }
{
    let p = src.rec.0 + at.0;
    let kind = kind_at(bytes, RecAt(p));
    if kind == kinds::NULL {
        return join_text(room, table, bytes, b"null", j, i);
    }
    if kind == kinds::FALSE {
        return join_text(room, table, bytes, b"false", j, i);
    }
    if kind == kinds::TRUE {
        return join_text(room, table, bytes, b"true", j, i);
    }
    let from = pair_at(bytes, RecAt(p + 1));
    let len = pair_at(bytes, RecAt(p + 3));
    join_word(
        room,
        table,
        bytes,
        TextAt(src.text.0 + from),
        TextLen(len),
        j,
        i,
    )
}

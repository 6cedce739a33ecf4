// A piece that is a simple value joined, or one that is undefined: its text, if it has one, with the whitespace before it.
// Computes: Unresolved (join_piece)
ghost use Rattle.std.specs.Prelude.{◌≤◌, length};
ghost use Rattle.rules.specs.Sizes.{max_text};
ghost use Rattle.eval_concat.specs.Model.{text_of};
ghost use Rattle.eval_concat.specs.Clauses.{GapAsked, GapIs, AddedIs, TextJoinedIs, NothingIs};

use crate::{Join, Kind, mixed, tested, too_large};
use codes::limits;
use doc_items::{COLUMN_KEY, COLUMN_KEYLEN, WIDTH, number_at};
use eval_results::extents::Extent;
use eval_writer::{Out, put_text};
use sheet_forms::WORD;
use text_chars::{RecAt, Refusal, TextAt, TextLen};

// The whitespace before the piece at item i, behind the text so far; where it ends.
fn join_gap(room: &mut [u8], table: &[u16], texts: &[u8], to: TextAt, i: usize) -> TextAt
    requires { GapAsked room.old to.0 i }
    ensures { GapIs table.now texts.now i to.0 room.old room.new result.0 }
{
    let at = number_at(table, WIDTH * i + COLUMN_KEY);
    let n = number_at(table, WIDTH * i + COLUMN_KEYLEN);
    put_text(room, to, texts, TextAt(at), TextLen(n));
    TextAt(to.0 + n)
}

// A text that is within its size, with the whitespace before it.
fn add_text(
    room: &mut [u8],
    table: &[u16],
    texts: &[u8],
    text: &[u8],
    to: TextAt,
    i: usize,
) -> Result<Join, Refusal>
    requires { GapAsked room.old to.0 i × (length text.now ≤ max_text) }
    ensures { AddedIs table.now texts.now i text.now to.0 room.old room.new result }
{
    let end = join_gap(room, table, texts, to, i);
    let n = text.len();
    put_text(room, end, text, TextAt(0), TextLen(n));
    tested(Join {
        kind: Kind::Simple,
        extent: Extent {
            out: Out {
                rec: RecAt(WORD),
                text: TextAt(end.0 + n),
            },
            deep: 0,
        },
    })
}

/// A simple piece, whose text is lent: its size, its kind, then the size of the join.
pub fn join_text(
    room: &mut [u8],
    table: &[u16],
    texts: &[u8],
    text: &[u8],
    j: Join,
    i: usize,
) -> Result<Join, Refusal>
    requires { GapAsked room.old (text_of j) i }
    ensures { TextJoinedIs table.now texts.now i text.now j room.old room.new result }
{
    if limits::TEXT < text.len() {
        return Err(too_large());
    }
    let to = j.extent.out.text;
    match j.kind {
        Kind::Array { count } => Err(mixed(table, i)),
        Kind::Object => Err(mixed(table, i)),
        Kind::Blank => add_text(room, table, texts, text, to, i),
        Kind::Simple => add_text(room, table, texts, text, to, i),
    }
}

/// A piece that is undefined: of a text the whitespace before it stays.
pub fn join_nothing(
    room: &mut [u8],
    table: &[u16],
    texts: &[u8],
    j: Join,
    i: usize,
) -> Result<Join, Refusal>
    requires { GapAsked room.old (text_of j) i }
    ensures { NothingIs table.now texts.now i j room.old room.new result }
{
    let to = j.extent.out.text;
    match j.kind {
        Kind::Array { count } => Ok(j),
        Kind::Object => Ok(j),
        Kind::Blank => {
            let end = join_gap(room, table, texts, to, i);
            Ok(Join {
                kind: Kind::Blank,
                extent: Extent {
                    out: Out {
                        rec: RecAt(0),
                        text: end,
                    },
                    deep: 0,
                },
            })
        }
        Kind::Simple => {
            let end = join_gap(room, table, texts, to, i);
            tested(Join {
                kind: Kind::Simple,
                extent: Extent {
                    out: Out {
                        rec: RecAt(WORD),
                        text: end,
                    },
                    deep: 0,
                },
            })
        }
    }
}

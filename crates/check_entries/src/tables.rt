// The root's value held against a lent table: the last step of check, behind the entries.
// Computes: Checking (table_accepted)
ghost use Rattle.check_entries.specs.Tables.Contracts.{TableAsked, TableIs};

use eval_store::compare::same_value;
use eval_writer::Out;
use sheet_sizes::{Sizes, within_size};
use text_chars::{RecLen, TextAt, TextLen};

/// Whether the table is the root's value, which is in the room, nested so deep and counted up to o; and the text part, of which the
/// trail's texts take so much, ends with its texts. Nothing is compared of a value over its size, nor where a length differs.
pub fn check_table(
    room: &[u8],
    o: Out,
    deep: usize,
    texts: TextAt,
    table: &[u8],
    text: &[u8],
) -> bool
    requires { TableAsked room.now texts.0 text.now }
    ensures { TableIs room.now o deep texts.0 table.now text.now result }
{
    let rec = o.rec;
    let word = o.text;
    let size = Sizes {
        rec: RecLen(rec.0),
        text: TextLen(word.0),
    };
    if within_size(deep, size) {
        if table.len() != rec.0 {
            return false;
        }
        if text.len() != texts.0 + word.0 {
            return false;
        }
        return same_value(room, o, texts, table, text);
    }
    false
}

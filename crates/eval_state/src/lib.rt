// What stands in a job's memory between two steps: the document, and the answers so far, each where its public record is in the trail.
// An answer is kept when its entry is laid; two finished objects that merge are kept beside each other. specs/Memories has the picture of
// the parts that doc_items does not name.
// The item of an unresolved value, by its number.
// Computes: Sheet, Documents (unresolved, by the index that read_numbering made)
#![tactic(auto)]

ghost use Rattle.eval_state.specs.Clauses.{HalfIs, AnswerAsked, AnswerIs, UndefinedAsked, UndefinedIs, PairAsked, PairIs};
ghost use Rattle.std.specs.Prelude.{◌<◌};
ghost use Rattle.rules.specs.Sizes.{max_unresolved};
ghost use Rattle.eval_state.specs.Index.{ItemIs};

use codes::limits;
use doc_items::number_at;
use eval_store::values::keep_value;
use eval_writer::{Out, Source};
use sheet_sizes::ENTRY;
use text_chars::{RecAt, TextAt};

/// Where a job's table has the marks of the unresolved values that were begun, behind the keys' columns.
pub const BEGUN: usize = eval_keys::COLUMNS_END;

/// How many numbers the table has.
pub const TABLE: usize = BEGUN + limits::UNRESOLVED;

/// Where a job's bytes have two finished objects that merge: their records, and their texts.
pub const PAIR_RECORDS: usize = doc_items::BYTES;

pub const PAIR_TEXTS: usize = PAIR_RECORDS + limits::ROOM;

/// How many bytes there are.
pub const BYTES: usize = PAIR_TEXTS + limits::ROOM;

// The second object of the pair, in records and in texts: each has half of a room.
const SECOND: usize = limits::RECORDS;

// What the table has of an answer: that it is undefined, else its record's offset in the trail and so many more.
const UNDEFINED: u16 = 1;

const FIRST_RECORD: usize = 2;

/// Keeps the value in the room as the answer of question b: so much of the trail and of the sheet's text is used.
pub fn keep_answer(
    table: &mut [u16],
    bytes: &mut [u8],
    room: &[u8],
    o: Out,
    b: usize,
    used: RecAt,
    t: TextAt,
)
    requires { AnswerAsked table.old bytes.old room.now o b used.0 t.0 }
    ensures { AnswerIs room.now o b used.0 t.0
        table.old table.new bytes.old bytes.new }
{
    let at = used.0 + ENTRY;
    let answers = Source {
        rec: RecAt(doc_items::TRAIL),
        text: TextAt(doc_items::SHEET),
    };
    keep_value(bytes, room, answers, RecAt(at), t, o);
    table[doc_items::ANSWERS + b] = (at + FIRST_RECORD) as u16;
}

/// Keeps that question b is undefined.
pub fn keep_undefined(table: &mut [u16], b: usize)
    requires { UndefinedAsked table.old b }
    ensures { UndefinedIs b table.old table.new }
{
    table[doc_items::ANSWERS + b] = UNDEFINED;
}

// Where the first or the second object of the pair begins.
fn half_of(second: bool) -> usize
    ensures { HalfIs second result }
{
    if second { SECOND } else { 0 }
}

/// Keeps the value in the room as the first or the second of the two objects that merge.
pub fn keep_pair(bytes: &mut [u8], room: &[u8], o: Out, second: bool)
    requires { PairAsked bytes.old room.now o }
    ensures { PairIs room.now o second bytes.old bytes.new }
{
    let half = half_of(second);
    let pair = Source {
        rec: RecAt(PAIR_RECORDS),
        text: TextAt(PAIR_TEXTS),
    };
    keep_value(bytes, room, pair, RecAt(half), TextAt(half), o);
}

// An item that is no root's. The index of a document that was read has no other number than an item's; of any table the answer is one.
const FIRST: usize = 1;

/// The item of question b.
pub fn item_of(table: &[u16], b: usize) -> usize
    requires { b < max_unresolved }
    ensures { ItemIs table.now b result }
{
    let i = number_at(table, doc_items::INDEX + b);
    if i < FIRST {
        return FIRST;
    }
    if i < doc_items::CAPACITY {
        return i;
    }
    FIRST
}

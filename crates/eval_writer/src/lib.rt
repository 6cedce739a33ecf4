// A value written into its room: one record with its text at a time. The room has the records, as kept, and behind them the texts. What has
// no room is left out and counted on, so that the size is known when the value is there; a text is stored whole or not at all.
// Texts in a value's room, and records that have one: a number's, a string's and a key's.
// Computes: Sheet
#![tactic(auto)]

pub mod copies;

ghost use Rattle.std.specs.Prelude.{◌+◌, ◌≤◌, [], ◌∷◌, ◌++◌, length};
ghost use Rattle.rules.specs.Sheet.{two};
ghost use Rattle.eval_writer.specs.Clauses.{Room, Near, Close, NearOut, Puts, FilledIs, Wrote, longest_text, PutsText, KeyWrote};
ghost use Rattle.eval_writer.specs.Model.{word_at};

use codes::{kinds, limits};
use doc_items::number_at;
use sheet_forms::{WORD, high, low};
use text_chars::{RecAt, TextAt, TextLen};

/// How far a value is written: the next record and the next text in the room.
#[derive(Clone, Copy)]
pub struct Out {
    pub rec: RecAt,
    pub text: TextAt,
}

/// Where finished values stand in a job's bytes: their records and their texts begin here.
#[derive(Clone, Copy)]
pub struct Source {
    pub rec: RecAt,
    pub text: TextAt,
}

// ---- records

fn put(room: &mut [u8], at: RecAt, b: u8)
    requires { Room room.old }
    ensures { Puts at.0 (b ∷ []) room.old room.new }
{
    let p = at.0;
    if p < limits::RECORDS {
        room[p] = b;
    }
}

// A number, the high byte first.
fn put_two(room: &mut [u8], at: RecAt, x: usize)
    requires { Room room.old × Close at.0 }
    ensures { Puts at.0 (two x) room.old room.new }
{
    let p = at.0;
    put(room, RecAt(p), high(x));
    put(room, RecAt(p + 1), low(x));
}

/// The record of an array or object: its kind and how long what is inside is. It may be written before or after that.
pub fn put_head(room: &mut [u8], at: RecAt, kind: u8, inside: usize)
    requires { Room room.old × Near at.0 }
    ensures { Puts at.0 (kind ∷ two inside) room.old room.new }
{
    let p = at.0;
    put(room, RecAt(p), kind);
    put_two(room, RecAt(p + 1), inside);
}

/// A record with two numbers.
pub fn put_record(room: &mut [u8], at: RecAt, kind: u8, a: usize, n: usize)
    requires { Room room.old × Near at.0 }
    ensures { Puts at.0 (kind ∷ two a ++ two n) room.old room.new }
{
    let p = at.0;
    put(room, RecAt(p), kind);
    put_two(room, RecAt(p + 1), a);
    put_two(room, RecAt(p + 3), n);
}

// ---- texts

/// Copies n bytes.
pub fn fill(out: &mut [u8], to: usize, from: &[u8], at: usize, n: usize)
    requires { (to + n ≤ length out.old) × (at + n ≤ length from.now) }
    ensures { FilledIs to from.now at n out.old out.new }
{
    for i in 0..n {
        out[to + i] = from[at + i];
    }
}

// ---- records with their texts

/// A value of one byte: null or a truth value.
pub fn put_plain(room: &mut [u8], kind: u8, o: Out) -> Out
    requires { Room room.old × NearOut o }
    ensures { Wrote (kind ∷ []) [] o result room.old room.new }
{
    let at = o.rec;
    let text = o.text;
    put(room, at, kind);
    Out {
        rec: RecAt(at.0 + 1),
        text,
    }
}

// How many numbers an item has, and which of them are its key's.
const WIDTH: usize = 8;

const KEY: usize = 2;

const KEY_LEN: usize = 3;

/// A text, whole or not at all; and not at all where it does not lie in `from`.
pub fn put_text(room: &mut [u8], to: TextAt, from: &[u8], at: TextAt, n: TextLen)
    requires { Room room.old × Near to.0 × Near at.0 × (n.0 ≤ longest_text) }
    ensures { PutsText to.0 n.0 (word_at from.now at.0 n.0) room.old room.new }
{
    let len = n.0;
    let f = at.0;
    let t = to.0;
    if f + len <= from.len() {
        if t + len <= limits::TEXT {
            fill(room, limits::RECORDS + t, from, f, len);
        }
    }
}

// A record with the number a before its length, and its text, which stands in `bytes`.
fn put_word(
    room: &mut [u8],
    bytes: &[u8],
    kind: u8,
    a: usize,
    at: TextAt,
    n: TextLen,
    o: Out,
) -> Out
    requires { Room room.old × NearOut o × Near at.0 × (n.0 ≤ longest_text) }
    ensures { Wrote (kind ∷ two a ++ two n.0) ((n.0, word_at bytes.now at.0 n.0) ∷ []) o result
        room.old room.new }
{
    let rec = o.rec;
    let text = o.text;
    put_record(room, rec, kind, a, n.0);
    put_text(room, text, bytes, at, n);
    Out {
        rec: RecAt(rec.0 + WORD),
        text: TextAt(text.0 + n.0),
    }
}

/// A number or string whose text stands in the job's bytes.
pub fn put_string(room: &mut [u8], bytes: &[u8], kind: u8, at: TextAt, n: TextLen, o: Out) -> Out
    requires { Room room.old × NearOut o × Near at.0 × (n.0 ≤ longest_text) }
    ensures { Wrote (kind ∷ two o.text.0 ++ two n.0) ((n.0, word_at bytes.now at.0 n.0) ∷ []) o result
        room.old room.new }
{
    put_word(room, bytes, kind, o.text.0, at, n, o)
}

/// A key, by its number: its text is that of the item which the number names.
pub fn put_key(room: &mut [u8], table: &[u16], bytes: &[u8], k: usize, o: Out) -> Out
    requires { Room room.old × NearOut o × (k ≤ longest_text) }
    ensures { KeyWrote table.now bytes.now k o result room.old room.new }
{
    let at = number_at(table, WIDTH * k + KEY);
    let n = number_at(table, WIDTH * k + KEY_LEN);
    put_word(room, bytes, kinds::KEY, k, TextAt(at), TextLen(n), o)
}

// The records of a value as kept, one by one: which bytes stand at a place, in the form in which they are kept and in document 01's. They
// are decided here and stored or compared by the callers.
// Computes: Sheet
#![tactic(auto)]

ghost use Rattle.std.specs.Prelude.{◌≡◌, ◌+◌, ◌/◌, ◌%◌, ◌≤◌, ◌<◌, get_or};
ghost use Rattle.sheet_forms.specs.Model.{member_of, members_c};
ghost use Rattle.sheet_forms.specs.Clauses.{Wide, ShapeIs, Near, Close, PairIs, EndIs, CountIs};
ghost use Rattle.sheet_forms.specs.Clauses.{farthest, Lent, TextIs, HeadIs, CountedIs, KeyIs, RecordIs, SizeIs, TextLenIs};

use codes::kinds;
use sheet_runs::run_end;
use text_chars::{RecAt, RecLen, TextAt, TextLen};

/// How many bytes the record of an array or object has, and one with a text.
pub const HEAD: usize = 3;

pub const WORD: usize = 5;

/// The two forms of a value's records.
#[derive(Clone, Copy)]
pub enum Form {
    /// a key has its number, an array or object how long what is inside is, as the evaluator reads them
    Kept,
    /// a key has its text's offset, an array or object its count of members, as document 01 has them
    Public,
}

/// What a record has behind its kind.
#[derive(Clone, Copy)]
pub enum Shape {
    /// nothing
    Plain,
    /// how long what is inside is; in document 01's form, how many members there are
    Head,
    /// a text
    Word,
    /// a key's number and text
    Key,
}

/// The bytes of a record.
#[derive(Clone, Copy)]
pub enum Record {
    /// none: the end, or a record that is cut short
    End,
    /// a kind
    One { b: u8 },
    /// a kind and a count or a length
    Three { b: u8, c: u8, d: u8 },
    /// a kind, an offset or a number, and a text's length
    Five { b: u8, c: u8, d: u8, e: u8, f: u8 },
}

/// A byte as a number.
pub fn wide(x: u8) -> usize
    ensures { Wide x result }
{
    x as usize
}

/// The high one of a number's two bytes.
pub fn high(x: usize) -> u8
    ensures { result ≡ x / 256 % 256 }
{
    (x / 256 % 256) as u8
}

/// The low one.
pub fn low(x: usize) -> u8
    ensures { result ≡ x % 256 }
{
    (x % 256) as u8
}

/// What a record of this kind has behind it. No other kind stands in kept records; such a byte is taken as a record of its own.
pub fn shape_of(kind: u8) -> Shape
    ensures { ShapeIs kind result }
{
    if kind < kinds::NUMBER {
        return Shape::Plain;
    }
    if kind < kinds::ARRAY {
        return Shape::Word;
    }
    if kind < kinds::KEY {
        return Shape::Head;
    }
    if kind == kinds::KEY {
        return Shape::Key;
    }
    Shape::Plain
}

// A record whose text begins at t.
fn text_record(room: &[u8], len: RecLen, at: RecAt, t: TextAt) -> Record
    requires { Lent room.now len.0 × (at.0 < len.0) }
    ensures { TextIs room.now len.0 at.0 t.0 result }
{
    let p = at.0;
    if len.0 - p < WORD {
        return Record::End;
    }
    let b = room[p];
    let c = high(t.0);
    let d = low(t.0);
    let e = room[p + 3];
    let f = room[p + 4];
    Record::Five { b, c, d, e, f }
}

/// The byte at a place, 0 past the end, which is no value's.
pub fn kind_at(s: &[u8], at: RecAt) -> u8
    ensures { result ≡ get_or s.now at.0 0 }
{
    let p = at.0;
    if p < s.len() {
        return s[p];
    }
    0
}

/// Two bytes as a number, the high one first; past the end each is 0.
pub fn pair_at(s: &[u8], at: RecAt) -> usize
    requires { Close at.0 }
    ensures { PairIs s.now at.0 result }
{
    let p = at.0;
    let high = wide(kind_at(s, RecAt(p)));
    let low = wide(kind_at(s, RecAt(p + 1)));
    high * 256 + low
}

/// Where the record at a place ends with all that is inside it: an array's and an object's has how long that is.
pub fn record_end(s: &[u8], at: RecAt) -> RecAt
    requires { Near at.0 }
    ensures { EndIs s.now at.0 result.0 }
{
    let p = at.0;
    match shape_of(kind_at(s, at)) {
        Shape::Plain => RecAt(p + 1),
        Shape::Word => RecAt(p + WORD),
        Shape::Key => RecAt(p + WORD),
        Shape::Head => {
            let n = pair_at(s, RecAt(p + 1));
            RecAt(p + HEAD + n)
        }
    }
}

// So many members and one more, but for a key: its member is the value behind it.
fn with_member(n: usize, kind: u8) -> usize
    requires { Near n }
    ensures { result ≡ n + member_of kind }
{
    if kind == kinds::KEY {
        return n;
    }
    n + 1
}

// How many members stand from one place up to another; those of one byte each are counted in runs.
fn count_up_to(s: &[u8], from: RecAt, end: RecAt) -> usize
    requires { Near end.0 }
    ensures { CountIs s.now from.0 end.0 result }
{
    let mut p = from.0;
    let mut n = 0;
    let e = end.0;
    while p < e {
        let kind = kind_at(s, RecAt(p));
        n = with_member(n, kind);
        let next = record_end(s, RecAt(p));
        let run = run_end(s, next, RecAt(e));
        n += run.0 - next.0;
        p = run.0;
    }
    n
}

/// How many members the array or object at a place has.
pub fn count_members(s: &[u8], at: RecAt) -> usize
    requires { at.0 ≤ farthest }
    ensures { result ≡ members_c s.now at.0 }
{
    let p = at.0;
    let end = record_end(s, at);
    count_up_to(s, RecAt(p + HEAD), end)
}

// A record of an array or object as document 01 has it: with how many members there are.
fn counted_record(room: &[u8], len: RecLen, at: RecAt) -> Record
    requires { Lent room.now len.0 × (at.0 < len.0) }
    ensures { CountedIs room.now len.0 at.0 result }
{
    let p = at.0;
    if len.0 - p < HEAD {
        return Record::End;
    }
    let b = room[p];
    let n = count_members(room, at);
    let c = high(n);
    let d = low(n);
    Record::Three { b, c, d }
}

// A record of an array or object, as it is.
fn head_record(room: &[u8], len: RecLen, at: RecAt) -> Record
    requires { Lent room.now len.0 × (at.0 < len.0) }
    ensures { HeadIs room.now len.0 at.0 result }
{
    let p = at.0;
    if len.0 - p < HEAD {
        return Record::End;
    }
    let b = room[p];
    let c = room[p + 1];
    let d = room[p + 2];
    Record::Three { b, c, d }
}

// A key's record, as it is.
fn key_record(room: &[u8], len: RecLen, at: RecAt) -> Record
    requires { Lent room.now len.0 × (at.0 < len.0) }
    ensures { KeyIs room.now len.0 at.0 result }
{
    let p = at.0;
    if len.0 - p < WORD {
        return Record::End;
    }
    let b = room[p];
    let c = room[p + 1];
    let d = room[p + 2];
    let e = room[p + 3];
    let f = room[p + 4];
    Record::Five { b, c, d, e, f }
}

/// The record at a place of the first len bytes, in a form; its text, if it has one, begins at t.
pub fn record_at(room: &[u8], len: RecLen, form: Form, at: RecAt, t: TextAt) -> Record
    requires { Lent room.now len.0 }
    ensures { RecordIs form room.now len.0 at.0 t.0 result }
{
    let p = at.0;
    if len.0 <= p {
        return Record::End;
    }
    let b = room[p];
    match shape_of(b) {
        Shape::Plain => Record::One { b },
        Shape::Head => match form {
            Form::Kept => head_record(room, len, at),
            Form::Public => counted_record(room, len, at),
        },
        Shape::Word => text_record(room, len, at, t),
        Shape::Key => match form {
            Form::Kept => key_record(room, len, at),
            Form::Public => text_record(room, len, at, t),
        },
    }
}

/// How many bytes a record has.
pub fn size_of(r: Record) -> RecLen
    ensures { SizeIs r result.0 }
{
    match r {
        Record::End => RecLen(0),
        Record::One { b } => RecLen(1),
        Record::Three { b, c, d } => RecLen(HEAD),
        Record::Five { b, c, d, e, f } => RecLen(WORD),
    }
}

/// How long its text is.
pub fn text_len(r: Record) -> TextLen
    ensures { TextLenIs r result.0 }
{
    match r {
        Record::End => TextLen(0),
        Record::One { b } => TextLen(0),
        Record::Three { b, c, d } => TextLen(0),
        Record::Five { b, c, d, e, f } => TextLen(wide(e) * 256 + wide(f)),
    }
}

// Entries of a lent trail, held against the rules' answers. Of an entry that was not found right its number alone is read; what was found
// right is kept for those behind it.
// Computes: Checking (answer_for, entries_from)
#![tactic(auto)]

pub mod tables;

ghost use Rattle.check_entries.specs.Clauses.{NextAsked, NextIs, AnswerAsked, AnswerIs, UndefinedAsked, UndefinedIs};

use eval_state::{keep_answer, keep_undefined};
use eval_store::compare::{same_entry, same_undefined};
use eval_writer::Out;
use sheet_sizes::ENTRY;
use text_chars::{RecAt, TextAt};

/// How far a sheet was found right: so many bytes of its trail, and of its text part.
#[derive(Clone, Copy)]
pub struct Reached {
    pub used: RecAt,
    pub text: TextAt,
}

// Where an entry has its number.
const NUMBER: usize = 1;

/// The number of the entry that begins behind those so far, in a document of so many unresolved values: it is one of them, and has no answer
/// yet, or no right entry begins there.
pub fn next_number(table: &[u16], trail: &[u8], used: RecAt, count: usize) -> Option<usize>
    requires { NextAsked trail.now used.0 count }
    ensures { NextIs table.now trail.now used.0 count result }
{
    let u = used.0;
    if trail.len() < u + ENTRY {
        return None;
    }
    let b = sheet_records::kinds::pair_at(trail, RecAt(u + NUMBER));
    if b < count {
        if doc_items::number_at(table, doc_items::ANSWERS + b) == 0 {
            return Some(b);
        }
        return None;
    }
    None
}

/// Holds the answer of question b, which is in the room, against the entry that begins behind those so far, and keeps it if it is there: so far
/// the sheet is right then.
pub fn check_answer(
    table: &mut [u16],
    bytes: &mut [u8],
    room: &[u8],
    o: Out,
    b: usize,
    at: Reached,
    trail: &[u8],
    text: &[u8],
) -> Option<Reached>
    requires { AnswerAsked table.old bytes.old room.now o b at trail.now text.now }
    ensures { AnswerIs room.now o b at trail.now text.now
        table.old table.new bytes.old bytes.new result }
{
    let used = at.used;
    let texts = at.text;
    let rec = o.rec;
    let word = o.text;
    let u = used.0;
    if trail.len() < u + ENTRY + rec.0 {
        return None;
    }
    if text.len() < texts.0 + word.0 {
        return None;
    }
    if same_entry(room, o, b, texts, &trail[u..], text) {
        keep_answer(table, bytes, room, o, b, used, texts);
        return Some(Reached {
            used: RecAt(u + ENTRY + rec.0),
            text: TextAt(texts.0 + word.0),
        });
    }
    None
}

/// The same of question b, which is undefined.
pub fn check_undefined(table: &mut [u16], b: usize, at: Reached, trail: &[u8]) -> Option<Reached>
    requires { UndefinedAsked table.old b at trail.now }
    ensures { UndefinedIs b at trail.now table.old table.new result }
{
    let used = at.used;
    let texts = at.text;
    let u = used.0;
    if same_undefined(b, &trail[u..]) {
        keep_undefined(table, b);
        return Some(Reached {
            used: RecAt(u + ENTRY),
            text: texts,
        });
    }
    None
}

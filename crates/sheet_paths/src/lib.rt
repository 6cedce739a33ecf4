// The value that a path names in a table: one member after another, then the part of the records that is the value.
// The answer of look-up: its cases, and the 64 bits of it that C gets.
// Computes: LookUp (value_named), Jobs (foundAt, Found)
#![tactic(auto)]

ghost use Rattle.std.specs.Prelude.{◌≤◌, length, ◌≡◌};
ghost use Rattle.rules.specs.Sizes.{max_room, max_path};
ghost use Rattle.sheet_records.specs.Kinds.Contracts.{near_room};
ghost use Rattle.text_elements.specs.Marks.Marks.{marks_room};
ghost use Rattle.sheet_paths.specs.Clauses.{NextIs, ValueNamedIs, PartIs, PartNamedIs};
ghost use Rattle.sheet_paths.specs.Answers.{job_of, packed, Packable};

use codes::{limits, refusals};
use text_chars::{DocAt, RecAt, RecLen, Refusal, TextAt, TextLen};

// The rules' number where fuel runs out; no job gives it.
const SPENT_FUEL: u8 = 63;

/// A value that a path names in a table: where it starts in the table's records, and how many bytes of them it takes.
#[derive(Clone, Copy)]
pub struct Part {
    pub start: RecAt,
    pub size: RecLen,
}

// The value of the member whose key is a part of the path's text.
fn next_value(
    table: &[u8],
    text: &[u8],
    names: &[u8],
    from: TextAt,
    end: TextAt,
    at: RecAt,
) -> Option<RecAt>
    requires { (length table.now ≤ max_room) × (length text.now ≤ max_room) × (at.0 ≤ near_room) }
    ensures { NextIs table.now text.now names.now from.0 end.0 at.0 result }
{
    let a = from.0;
    let b = end.0;
    if b < a {
        return None;
    }
    if names.len() < b {
        return None;
    }
    sheet_records::member(table, text, &names[a..b], at)
}

// The value that a path names. The texts of its elements stand one behind the other, and the marks tell their ends.
fn value_named(
    table: &[u8],
    text: &[u8],
    names: &[u8],
    marks: &[usize],
    count: usize,
) -> Option<RecAt>
    requires { (length table.now ≤ max_room) × (length text.now ≤ max_room) × (marks_room ≤ length marks.now) × (count ≤ max_path) }
    ensures { ValueNamedIs table.now text.now names.now marks.now count result }
{
    let mut at = RecAt(0);
    let mut from = TextAt(0);
    for i in 0..count {
        let end = text_elements::marks::end_at(marks, i);
        at = next_value(table, text, names, from, end, at)?;
        from = end;
    }
    Some(at)
}

// The part of the table that is the value at a place.
fn part_at(table: &[u8], limit: TextLen, at: RecAt) -> Result<Part, Refusal>
    requires { (length table.now ≤ max_room) × (at.0 ≤ near_room) }
    ensures { PartIs table.now limit.0 at.0 result }
{
    match sheet_records::value_end(table, limit, at, limits::NESTING) {
        Some(end) => Ok(Part {
            start: at,
            size: RecLen(end.0 - at.0),
        }),
        // In a whole table each value has its end. Elsewhere the rules have spent their fuel.
        None => Err(Refusal {
            number: SPENT_FUEL,
            place: DocAt(0),
        }),
    }
}

/// What a path of so many elements names: the part that is the value, or number 16.
pub fn part_named(
    table: &[u8],
    text: &[u8],
    names: &[u8],
    marks: &[usize],
    count: usize,
) -> Result<Part, Refusal>
    requires { (length table.now ≤ max_room) × (length text.now ≤ max_room) × (marks_room ≤ length marks.now) × (count ≤ max_path) }
    ensures { PartNamedIs table.now text.now names.now marks.now count result }
{
    match value_named(table, text, names, marks, count) {
        Some(place) => part_at(table, TextLen(text.len()), place),
        None => Err(Refusal {
            number: refusals::NOT_FOUND,
            place: DocAt(0),
        }),
    }
}

// The lowest bits of what is packed above the number: a value's start or a refusal's place, and a value's size.
const START: u64 = 64;

const PLACE: u64 = 64;

const SIZE: u64 = 64 * 65536;

/// A found value's or a refusal's 64 bits.
pub fn pack(found: Result<Part, Refusal>) -> u64
    requires { Packable found }
    ensures { result ≡ packed (job_of found) }
{
    match found {
        Ok(part) => part.start.0 as u64 * START + part.size.0 as u64 * SIZE,
        Err(refusal) => refusal.number as u64 + refusal.place.0 as u64 * PLACE,
    }
}

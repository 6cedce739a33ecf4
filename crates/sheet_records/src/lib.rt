// Records of a table that another lends: where one ends, whether a table is whole, and the value of a key. Any bytes may be lent.
// Computes: LookUp (after_value, is_whole, member_at)
#![tactic(auto)]

pub mod kinds;

ghost use Rattle.std.specs.Prelude.{◌≡◌, ◌+◌, ◌≤◌, length};
ghost use Rattle.rules.specs.Bytes.{same};
ghost use Rattle.rules.specs.Sizes.{max_room, max_nesting};
ghost use Rattle.rules.specs.LookUp.{after_value, is_whole, text_at, member_from, member_at};
ghost use Rattle.sheet_records.specs.Kinds.Contracts.{near_room, EndIs};
ghost use Rattle.sheet_records.specs.Clauses.{near_member, past_member, members_end};

use crate::kinds::{Kind, after_text, kind_of, pair_at, value_start};
use codes::limits;
use text_bytes::same_text;
use text_chars::{RecAt, TextAt, TextLen, record_byte};

/// The end of the value at a place, found from the ends of those inside it; so many containers may stand inside one another. There is
/// none where a record is cut off, of no kind, too deep, or has its text outside the text part.
#[cycle(members_end_value_end)]
pub fn value_end(table: &[u8], limit: TextLen, at: RecAt, levels: usize) -> Option<RecAt>
    requires { (length table.now ≤ max_room) × (at.0 ≤ near_room) × (levels ≤ max_nesting) }
    ensures { EndIs (after_value levels table.now limit.0 at.0) (at.0 + 1) (length table.now) result }
{
    let p = at.0;
    let b = record_byte(table, at);
    match kind_of(b) {
        Kind::Bad => None,
        Kind::Plain => Some(RecAt(p + 1)),
        Kind::Texted => after_text(table, limit, b, at),
        Kind::Container { keyed } => {
            if levels == 0 {
                return None;
            }
            if table.len() < p + 3 {
                return None;
            }
            let count = pair_at(table, RecAt(p + 1));
            members_end(table, limit, keyed, count, RecAt(p + 3), levels - 1)
        }
    }
}

// The end of so many members. Each takes a byte at least: the remaining record bytes fall from one to the next and to those inside it,
// so however many are promised and however deep they go, the table's end is soon met.
#[cycle(members_end_value_end)]
fn members_end(
    table: &[u8],
    limit: TextLen,
    keyed: bool,
    count: usize,
    at: RecAt,
    levels: usize,
) -> Option<RecAt>
    requires { (length table.now ≤ max_room) × (at.0 ≤ length table.now) × (levels ≤ max_nesting) }
    ensures { EndIs (members_end keyed levels table.now limit.0 count at.0) at.0 (length table.now) result }
{
    let mut here = at;
    for _ in 0..count {
        let value = value_start(table, limit, keyed, here)?;
        here = value_end(table, limit, value, levels)?;
    }
    Some(here)
}

/// Whether a table is one whole value with nothing after it.
pub fn is_whole(table: &[u8], limit: TextLen) -> bool
    requires { length table.now ≤ max_room }
    ensures { result ≡ is_whole table.now limit.0 }
{
    match value_end(table, limit, RecAt(0), limits::NESTING) {
        None => false,
        Some(end) => end.0 == table.len(),
    }
}

// Whether the record at a place refers to a key's text.
fn refers_to(table: &[u8], text: &[u8], key: &[u8], at: RecAt) -> bool
    requires { (length table.now ≤ max_room) × (length text.now ≤ max_room) × (at.0 ≤ near_member) }
    ensures { result ≡ same (text_at table.now text.now at.0) key.now }
{
    let p = at.0;
    let from = pair_at(table, RecAt(p + 1));
    let len = pair_at(table, RecAt(p + 3));
    same_text(text, TextAt(from), TextLen(len), key)
}

// The first value with this key among so many members.
fn member_from(table: &[u8], text: &[u8], key: &[u8], count: usize, at: RecAt) -> Option<RecAt>
    requires { (length table.now ≤ max_room) × (length text.now ≤ max_room) × (at.0 ≤ length table.now + 2) }
    ensures { EndIs (member_from count table.now text.now key.now at.0) at.0
        (past_member table.now) result }
{
    let limit = TextLen(text.len());
    let mut here = at;
    for _ in 0..count {
        let p = here.0;
        if refers_to(table, text, key, here) {
            return Some(RecAt(p + 5));
        }
        here = value_end(table, limit, RecAt(p + 5), limits::NESTING)?;
    }
    // No member has the key.
    None
}

/// The place of a key's value in the object at a place, of the first of equal keys.
pub fn member(table: &[u8], text: &[u8], key: &[u8], at: RecAt) -> Option<RecAt>
    requires { (length table.now ≤ max_room) × (length text.now ≤ max_room) × (at.0 ≤ near_room) }
    ensures { EndIs (member_at table.now text.now key.now at.0) (at.0 + 1)
        (past_member table.now) result }
{
    let p = at.0;
    if record_byte(table, at) == crate::kinds::OBJECT {
        let count = pair_at(table, RecAt(p + 1));
        return member_from(table, text, key, count, RecAt(p + 3));
    }
    None
}

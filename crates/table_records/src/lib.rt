// Records of a sized table: where a value ends, read off its own record, and the value of a key by skips from member to member. Any bytes
// may be lent; of a sized table it comes to what the definitions say (specs/Sized).
// Computes: SizedTables (sized_member)
#![tactic(auto)]

ghost use Rattle.std.specs.Prelude.{◌≡◌, ◌+◌, ◌≤◌, length};
ghost use Rattle.rules.specs.Bytes.{same};
ghost use Rattle.rules.specs.Sizes.{max_room};
ghost use Rattle.rules.specs.LookUp.{text_at};
ghost use Rattle.sheet_records.specs.Kinds.Contracts.{near_room, EndIs};
ghost use Rattle.table_records.specs.Skips.{ends_at, skip_value, member_from, member_at, near_key, past_key};

use sheet_records::kinds::{Kind, kind_of, pair_at};
use text_bytes::same_text;
use text_chars::{RecAt, TextAt, TextLen, record_byte};

// An end, if it is not past the table.
fn ends_at(table: &[u8], end: usize) -> Option<RecAt>
    ensures { EndIs (ends_at table.now end) end (length table.now) result }
{
    if table.len() < end {
        return None;
    }
    Some(RecAt(end))
}

/// The end of the value at a place, by its own record: none of those inside it is looked at.
pub fn skip_value(table: &[u8], at: RecAt) -> Option<RecAt>
    requires { (length table.now ≤ max_room) × (at.0 ≤ near_room) }
    ensures { EndIs (skip_value table.now at.0) (at.0 + 1) (length table.now) result }
{
    let p = at.0;
    match kind_of(record_byte(table, at)) {
        Kind::Bad => None,
        Kind::Plain => Some(RecAt(p + 1)),
        Kind::Texted => ends_at(table, p + 5),
        Kind::Container { keyed } => ends_at(table, p + 5 + pair_at(table, RecAt(p + 3))),
    }
}

// Whether the record at a place refers to a key's text.
fn key_is(table: &[u8], text: &[u8], key: &[u8], at: RecAt) -> bool
    requires { (length table.now ≤ max_room) × (length text.now ≤ max_room) × (at.0 ≤ near_key) }
    ensures { result ≡ same (text_at table.now text.now at.0) key.now }
{
    let p = at.0;
    let from = pair_at(table, RecAt(p + 1));
    let len = pair_at(table, RecAt(p + 3));
    same_text(text, TextAt(from), TextLen(len), key)
}

// The value with this key among so many members.
fn member_from(table: &[u8], text: &[u8], key: &[u8], count: usize, at: RecAt) -> Option<RecAt>
    requires { (length table.now ≤ max_room) × (length text.now ≤ max_room) × (at.0 ≤ length table.now + 4) }
    ensures { EndIs (member_from count table.now text.now key.now at.0) at.0
        (past_key table.now) result }
{
    let mut here = at;
    for _ in 0..count {
        let p = here.0;
        if key_is(table, text, key, here) {
            return Some(RecAt(p + 5));
        }
        here = skip_value(table, RecAt(p + 5))?;
    }
    // No member has the key.
    None
}

/// The place of a key's value in the object at a place.
pub fn member(table: &[u8], text: &[u8], key: &[u8], at: RecAt) -> Option<RecAt>
    requires { (length table.now ≤ max_room) × (length text.now ≤ max_room) × (at.0 ≤ near_room) }
    ensures { EndIs (member_at table.now text.now key.now at.0) (at.0 + 1)
        (past_key table.now) result }
{
    let p = at.0;
    if record_byte(table, at) == sheet_records::kinds::OBJECT {
        let count = pair_at(table, RecAt(p + 1));
        return member_from(table, text, key, count, RecAt(p + 5));
    }
    None
}

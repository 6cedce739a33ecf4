// The value in its room held against a lent sheet: whether its records, its texts and its entry stand there. Check asks this where resolve
// lays them.
// Computes: Sheet
ghost use Rattle.std.specs.Prelude.{◌+◌, ◌≤◌, length, take, drop};
ghost use Rattle.sheet_layout.specs.Clauses.{EqIs};
ghost use Rattle.eval_store.specs.Values.Contracts.{LayAsked};
ghost use Rattle.eval_store.specs.Compare.Contracts.{EntryAsked, StartIs, SameValueIs, SameEntryIs, SameUndefinedIs};

use codes::{kinds, limits};
use eval_writer::Out;
use sheet_forms::{high, low};
use sheet_layout::{same_records, same_three};
use sheet_sizes::ENTRY;
use text_chars::{RecLen, TextAt};

// Whether n bytes are the same.
fn same_bytes(s: &[u8], to: usize, from: &[u8], at: usize, n: usize) -> bool
    requires { (to + n ≤ length s.now) × (at + n ≤ length from.now) }
    ensures { EqIs to (take n (drop at from.now)) s.now result }
{
    for i in 0..n {
        if s[to + i] != from[at + i] {
            return false;
        }
    }
    true
}

/// Whether the value's records stand at the beginning of a part, and its texts in the text part from t on.
pub fn same_value(room: &[u8], o: Out, t: TextAt, part: &[u8], text: &[u8]) -> bool
    requires { LayAsked room.now o t.0 part.now text.now }
    ensures { SameValueIs room.now o t.0 part.now text.now result }
{
    let rec = o.rec;
    let end = o.text;
    if same_records(room, RecLen(rec.0), t, part) {
        return same_bytes(text, t.0, room, limits::RECORDS, end.0);
    }
    false
}

// Whether an entry of this kind and number begins here.
fn same_start(rest: &[u8], kind: u8, b: usize) -> bool
    requires { 3 ≤ length rest.now }
    ensures { StartIs kind b rest.now result }
{
    same_three(rest, 0, kind, high(b), low(b))
}

/// Whether the rest of a trail begins with the entry of the unresolved value b, whose answer is in the room.
pub fn same_entry(room: &[u8], o: Out, b: usize, t: TextAt, rest: &[u8], text: &[u8]) -> bool
    requires { EntryAsked room.now o t.0 rest.now text.now }
    ensures { SameEntryIs room.now o b t.0 rest.now text.now result }
{
    if same_start(rest, kinds::ENTRY, b) {
        return same_value(room, o, t, &rest[ENTRY..], text);
    }
    false
}

/// Whether it begins with the entry of the unresolved value b, which is undefined.
pub fn same_undefined(b: usize, rest: &[u8]) -> bool
    requires { 3 ≤ length rest.now }
    ensures { SameUndefinedIs b rest.now result }
{
    same_start(rest, kinds::UNDEFINED_ENTRY, b)
}

// Entries of the trail: "Each entry is laid into the unused rest of the trail buffer". The writer of one answer gets the part from the used
// length on; what stands before it stays.
// Computes: Sheet
ghost use Rattle.std.specs.Prelude.{◌≤◌, length};
ghost use Rattle.eval_store.specs.Entries.Contracts.{StartIs, EntryAsked, EntryIs, UndefinedIs};
ghost use Rattle.eval_store.specs.Entries.Contracts.{AddAsked, AddIs, UndefinedAsked, AddUndefinedIs};

use crate::values::lay_value;
use codes::kinds;
use eval_writer::Out;
use sheet_forms::{high, low};
use sheet_sizes::ENTRY;
use text_chars::{RecAt, TextAt};

// The three bytes of an entry: its kind and the unresolved value's number.
fn start_entry(rest: &mut [u8], kind: u8, b: usize)
    requires { 3 ≤ length rest.old }
    ensures { StartIs kind b rest.old rest.new }
{
    rest[0] = kind;
    rest[1] = high(b);
    rest[2] = low(b);
}

// Lays the answer in the room as the entry of the unresolved value b, into the rest of the trail; its texts into the text part from t on.
fn lay_entry(room: &[u8], o: Out, b: usize, t: TextAt, rest: &mut [u8], text: &mut [u8])
    requires { EntryAsked room.now o t.0 rest.old text.old }
    ensures { EntryIs room.now o b t.0
        rest.old rest.new text.old text.new }
{
    start_entry(rest, kinds::ENTRY, b);
    lay_value(room, o, t, &mut rest[ENTRY..], text);
}

// Lays the entry of the unresolved value b, which is undefined.
fn lay_undefined(b: usize, rest: &mut [u8])
    requires { 3 ≤ length rest.old }
    ensures { UndefinedIs b rest.old rest.new }
{
    start_entry(rest, kinds::UNDEFINED_ENTRY, b);
}

/// Adds an entry to a trail of which so much is used.
pub fn add_entry(
    room: &[u8],
    o: Out,
    b: usize,
    used: RecAt,
    t: TextAt,
    trail: &mut [u8],
    text: &mut [u8],
)
    requires { AddAsked room.now o used.0 t.0 trail.old text.old }
    ensures { AddIs room.now o b used.0 t.0
        trail.old trail.new text.old text.new }
{
    let u = used.0;
    lay_entry(room, o, b, t, &mut trail[u..], text);
}

/// Adds the entry of an undefined one.
pub fn add_undefined(b: usize, used: RecAt, trail: &mut [u8])
    requires { UndefinedAsked used.0 trail.old }
    ensures { AddUndefinedIs b used.0 trail.old trail.new }
{
    let u = used.0;
    lay_undefined(b, &mut trail[u..]);
}

// The value in a room, its records laid into the unused rest of a buffer, kept, or compared with such a rest. Its texts are taken to begin
// at an offset; each begins where the one before ends, so one running number gives all offsets.
// Computes: Sheet
#![tactic(auto)]

ghost use Rattle.std.specs.Prelude.{◌+◌, ◌≤◌, [], ◌∷◌, length};
ghost use Rattle.sheet_forms.specs.Model.{size_of};
ghost use Rattle.sheet_layout.specs.Clauses.{Asked, SetIs, EqIs, StoreIs, SameIs, RunLaidIs, LayIs, SameRecordsIs};
ghost use Rattle.sheet_forms.specs.declared.Form.{Form as Forms};

use sheet_forms::{Form, Record, record_at, size_of, text_len};
use sheet_runs::run_end;
use text_chars::{RecAt, RecLen, TextAt};

// How many bytes a record has that is a kind alone. Only behind one a run is looked for, so that other records do not pay for it.
const PLAIN: usize = 1;

// ---- one record stored

fn store_three(part: &mut [u8], p: usize, b: u8, c: u8, d: u8)
    requires { p + 3 ≤ length part.old }
    ensures { SetIs p (b ∷ c ∷ d ∷ []) part.old part.new }
{
    part[p] = b;
    part[p + 1] = c;
    part[p + 2] = d;
}

fn store_five(part: &mut [u8], p: usize, b: u8, c: u8, d: u8, e: u8, f: u8)
    requires { p + 5 ≤ length part.old }
    ensures { SetIs p (b ∷ c ∷ d ∷ e ∷ f ∷ []) part.old part.new }
{
    store_three(part, p, b, c, d);
    part[p + 3] = e;
    part[p + 4] = f;
}

fn store(part: &mut [u8], at: RecAt, r: Record)
    requires { at.0 + size_of r ≤ length part.old }
    ensures { StoreIs at.0 r part.old part.new }
{
    let p = at.0;
    match r {
        Record::End => {}
        Record::One { b } => {
            part[p] = b;
        }
        Record::Three { b, c, d } => {
            store_three(part, p, b, c, d);
        }
        Record::Five { b, c, d, e, f } => {
            store_five(part, p, b, c, d, e, f);
        }
    }
}

// ---- one record compared

/// Whether these three bytes stand at a place.
pub fn same_three(part: &[u8], p: usize, b: u8, c: u8, d: u8) -> bool
    requires { p + 3 ≤ length part.now }
    ensures { EqIs p (b ∷ c ∷ d ∷ []) part.now result }
{
    if part[p] != b {
        return false;
    }
    if part[p + 1] != c {
        return false;
    }
    part[p + 2] == d
}

fn same_five(part: &[u8], p: usize, b: u8, c: u8, d: u8, e: u8, f: u8) -> bool
    requires { p + 5 ≤ length part.now }
    ensures { EqIs p (b ∷ c ∷ d ∷ e ∷ f ∷ []) part.now result }
{
    if same_three(part, p, b, c, d) {
        if part[p + 3] != e {
            return false;
        }
        return part[p + 4] == f;
    }
    false
}

fn same_record(part: &[u8], at: RecAt, r: Record) -> bool
    requires { at.0 + size_of r ≤ length part.now }
    ensures { SameIs at.0 r part.now result }
{
    let p = at.0;
    match r {
        Record::End => true,
        Record::One { b } => part[p] == b,
        Record::Three { b, c, d } => same_three(part, p, b, c, d),
        Record::Five { b, c, d, e, f } => same_five(part, p, b, c, d, e, f),
    }
}

// ---- all records of a value

// Lays records of one byte each as they stand, from a place on; the place after them.
fn lay_run(room: &[u8], len: RecLen, at: RecAt, part: &mut [u8]) -> RecAt
    requires { len.0 ≤ length part.old }
    ensures { RunLaidIs room.now len.0 at.0 result.0 part.old part.new }
{
    let end = run_end(room, at, RecAt(len.0));
    let last = end.0;
    for i in at.0..last {
        part[i] = room[i];
    }
    end
}

// Lays the value in the room in a form; records of one byte each in runs.
fn lay_form(room: &[u8], len: RecLen, form: Form, t: TextAt, part: &mut [u8])
    requires { Asked room.now len.0 t.0 part.old }
    ensures { LayIs form room.now len.0 t.0 part.old part.new }
{
    let mut p = 0;
    let mut text = t.0;
    loop {
        let r = record_at(room, len, form, RecAt(p), TextAt(text));
        let n = size_of(r);
        if n.0 == 0 {
            return;
        }
        store(part, RecAt(p), r);
        let m = text_len(r);
        text += m.0;
        p += n.0;
        if n.0 == PLAIN {
            let end = lay_run(room, len, RecAt(p), part);
            p = end.0;
        }
    }
}

/// Lays the value in the room: its public records, at the beginning of a part; its texts are from t on.
pub fn lay_records(room: &[u8], len: RecLen, t: TextAt, part: &mut [u8])
    requires { Asked room.now len.0 t.0 part.old }
    ensures { LayIs Forms.Public room.now len.0 t.0 part.old part.new }
{
    lay_form(room, len, Form::Public, t, part);
}

/// Keeps the value in the room: its records as kept, at the beginning of a part; its texts are from t on.
pub fn keep_records(room: &[u8], len: RecLen, t: TextAt, part: &mut [u8])
    requires { Asked room.now len.0 t.0 part.old }
    ensures { LayIs Forms.Kept room.now len.0 t.0 part.old part.new }
{
    lay_form(room, len, Form::Kept, t, part);
}

/// Whether a part begins with the public records of the value in the room, its texts from t on.
pub fn same_records(room: &[u8], len: RecLen, t: TextAt, part: &[u8]) -> bool
    requires { Asked room.now len.0 t.0 part.now }
    ensures { SameRecordsIs room.now len.0 t.0 part.now result }
{
    let mut p = 0;
    let mut text = t.0;
    loop {
        let r = record_at(room, len, Form::Public, RecAt(p), TextAt(text));
        let n = size_of(r);
        if n.0 == 0 {
            return true;
        }
        if same_record(part, RecAt(p), r) {
            let m = text_len(r);
            text += m.0;
            p += n.0;
        } else {
            return false;
        }
    }
}

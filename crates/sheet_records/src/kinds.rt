// One record of a table that another lends: numbers of two bytes, its kind, the text that it refers to. Any bytes may be lent.
// Computes: Sheet (pairAt), LookUp (after_text)
ghost use Rattle.std.specs.Prelude.{◌≡◌, ◌+◌, ◌*◌, ◌≤◌, length};
ghost use Rattle.rules.specs.Sizes.{max_room};
ghost use Rattle.rules.specs.LookUp.{after_text};
ghost use Rattle.sheet_records.specs.Kinds.Kinds.{kind_of};
ghost use Rattle.sheet_records.specs.Kinds.Contracts.{Lent, far_text, PairIs, EndIs, value_start};

use codes::kinds;
use text_chars::{RecAt, TextAt, TextLen, record_byte, text_byte};

/// The kinds of records, as wide as a byte is read.
pub const NULL: u32 = kinds::NULL as u32;

pub const TRUE: u32 = kinds::TRUE as u32;

pub const STRING: u32 = kinds::STRING as u32;

pub const OBJECT: u32 = kinds::OBJECT as u32;

pub const KEY: u32 = kinds::KEY as u32;

/// What a value's record has behind its kind.
#[derive(Clone, Copy)]
pub enum Kind {
    /// Nothing: null, false, true.
    Plain,
    /// A text: number, string.
    Texted,
    /// Members: array, or object, whose members have keys.
    Container { keyed: bool },
    /// It is no value.
    Bad,
}

// Two bytes as a number, the high one first.
fn two_bytes(high: u32, low: u32) -> usize
    requires { (high ≤ 256) × (low ≤ 256) }
    ensures { result ≡ high * 256 + low }
{
    high as usize * 256 + low as usize
}

/// The number of two bytes at an offset in records.
pub fn pair_at(table: &[u8], at: RecAt) -> usize
    requires { Lent table.now at.0 }
    ensures { PairIs table.now at.0 result }
{
    let p = at.0;
    two_bytes(record_byte(table, at), record_byte(table, RecAt(p + 1)))
}

/// The number of two bytes at an offset in texts: the end of a path's element.
pub fn text_pair(texts: &[u8], at: TextAt) -> usize
    requires { at.0 ≤ far_text }
    ensures { PairIs texts.now at.0 result }
{
    let p = at.0;
    two_bytes(text_byte(texts, at), text_byte(texts, TextAt(p + 1)))
}

/// The place after a record of this kind that refers to a text; none where it is cut off, of another kind, or has its text outside the
/// text part.
pub fn after_text(table: &[u8], limit: TextLen, kind: u32, at: RecAt) -> Option<RecAt>
    requires { Lent table.now at.0 }
    ensures { EndIs (after_text table.now limit.0 kind at.0) (at.0 + 1) (length table.now) result }
{
    let p = at.0;
    if table.len() < p + 5 {
        return None;
    }
    if record_byte(table, at) == kind {
        let to = pair_at(table, RecAt(p + 1)) + pair_at(table, RecAt(p + 3));
        let n = limit.0;
        if n < to {
            return None;
        }
        Some(RecAt(p + 5))
    } else {
        None
    }
}

/// The kind of a value's record.
pub fn kind_of(b: u32) -> Kind
    ensures { result ≡ kind_of b }
{
    if b < NULL {
        return Kind::Bad;
    }
    if b <= TRUE {
        return Kind::Plain;
    }
    if b <= STRING {
        return Kind::Texted;
    }
    if b <= OBJECT {
        return Kind::Container { keyed: b == OBJECT };
    }
    Kind::Bad
}

/// Where a member's value starts: of an object behind its key.
pub fn value_start(table: &[u8], limit: TextLen, keyed: bool, at: RecAt) -> Option<RecAt>
    requires { (length table.now ≤ max_room) × (at.0 ≤ length table.now) }
    ensures { EndIs (value_start keyed table.now limit.0 at.0) at.0 (length table.now) result }
{
    if keyed {
        after_text(table, limit, KEY, at)
    } else {
        Some(at)
    }
}

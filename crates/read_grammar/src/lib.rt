// Decisions of the grammar that look at a place of a document and write nothing: what begins there, what parts two members of a container,
// and where a value stands behind its key.
// Computes: Reading (`start_of`, `parted`, `value_place`), Paths (`starts_include`), Refusals (`not_allowed`)
#![tactic(auto)]

pub mod limits;
pub mod roots;

ghost use Rattle.std.specs.Prelude.{◌≡◌, true, ◌+◌, ◌≤◌, ◌<◌, length};
ghost use Rattle.rules.specs.Sizes.{max_document};
ghost use Rattle.rules.specs.Bytes.{byte_at};
ghost use Rattle.rules.specs.Characters.{after_gap};
ghost use Rattle.rules.specs.Paths.{starts_include};
ghost use Rattle.rules.specs.Reading as rules;
ghost use Rattle.text_scan.specs.Scan.{EndIs};
ghost use Rattle.read_grammar.specs.Decisions.{closes, StartIs, NotAllowedIs, TurnIs, PlaceIs};

use codes::{bytes, refusals};
use text_chars::{Cursor, DocAt, Refusal};

/// What begins at a place of a value.
#[derive(Clone, Copy)]
pub enum Start {
    /// an object, and the cursor past its `{`
    Brace(Cursor),
    /// an array, and the cursor past its `[`
    Bracket(Cursor),
    /// a substitution
    Dollar,
    /// a simple piece
    Scalar,
    /// no piece
    Nothing,
}

/// What begins at a place of a value.
pub fn start_of(s: &[u8], c: Cursor) -> Start
    requires { (length s.now ≤ max_document) × (c.at.0 ≤ length s.now) }
    ensures { StartIs s.now c.at.0 result }
{
    let d = c.at;
    let at = d.0;
    let b = text_chars::byte_at(s, d);
    let here = text_scan::look(s, c);
    let next = here.next;
    if b == bytes::OPEN_BRACE {
        return Start::Brace(next);
    }
    if b == bytes::OPEN_BRACKET {
        return Start::Bracket(next);
    }
    if b == bytes::DOLLAR {
        let second = text_chars::byte_at(s, DocAt(at + 1));
        if second == bytes::OPEN_BRACE {
            return Start::Dollar;
        }
        return Start::Nothing;
    }
    if text_unquoted::starts_simple(s, c) {
        return Start::Scalar;
    }
    Start::Nothing
}

/// 3, or 4 at the end: the number of a byte that is not allowed.
pub fn not_allowed(s: &[u8], c: Cursor) -> u8
    requires { (length s.now ≤ max_document) × (c.at.0 ≤ length s.now) }
    ensures { NotAllowedIs s.now c.at.0 result }
{
    let d = c.at;
    let at = d.0;
    if at < s.len() {
        return refusals::BYTE_NOT_ALLOWED;
    }
    refusals::UNEXPECTED_END
}

/// What stands where a member of a container, or its closing byte, may stand.
#[derive(Clone, Copy)]
pub enum Turn {
    /// the closing byte, and the cursor past it
    Close(Cursor),
    /// the document's end, where a byte would close
    End,
    /// anything else: a member
    Member,
}

/// What stands where a member of a container, or its closing byte (`bytes::NONE`: the end), may stand.
pub fn turn_at(s: &[u8], c: Cursor, closing: u32) -> Turn
    requires { (length s.now ≤ max_document) × (c.at.0 ≤ length s.now) × (closes closing ≡ true) }
    ensures { TurnIs closing s.now c.at.0 result }
{
    let d = c.at;
    let b = text_chars::byte_at(s, d);
    if b == closing {
        let here = text_scan::look(s, c);
        let next = here.next;
        return Turn::Close(next);
    }
    if b == bytes::NONE {
        return Turn::End;
    }
    Turn::Member
}

// ---- between members, and between key and value

// The place behind an ASCII byte and the gap after it.
fn behind(s: &[u8], c: Cursor) -> Cursor
    requires { (length s.now ≤ max_document) × (c.at.0 ≤ length s.now) × (byte_at s.now c.at.0 < 128) }
    ensures { EndIs s.now c.at.0 (after_gap s.now (c.at.0 + 1)) result }
{
    let here = text_scan::look(s, c);
    let next = here.next;
    let gap = text_scan::gap_at(s, next);
    let end = gap.next;
    end
}

/// Behind a member: where the next one, or the closing byte, may stand.
pub fn parted(s: &[u8], c: Cursor, closing: u32) -> Result<Cursor, Refusal>
    requires { (length s.now ≤ max_document) × (c.at.0 ≤ length s.now) }
    ensures { PlaceIs (rules.parted closing s.now c.at.0) s.now c.at.0 result }
{
    let gap = text_scan::gap_at(s, c);
    let p = gap.next;
    let newline = gap.newline;
    let d = p.at;
    let b = text_chars::byte_at(s, d);
    if b == bytes::COMMA {
        let member = behind(s, p);
        return Ok(member);
    }
    if b == bytes::NONE {
        return Ok(p);
    }
    if b == closing {
        return Ok(p);
    }
    if newline {
        return Ok(p);
    }
    let place = p.at;
    Err(Refusal {
        number: refusals::BYTE_NOT_ALLOWED,
        place,
    })
}

/// Behind a key: where its value stands.
pub fn value_place(s: &[u8], c: Cursor) -> Result<Cursor, Refusal>
    requires { (length s.now ≤ max_document) × (c.at.0 ≤ length s.now) }
    ensures { PlaceIs (rules.value_place s.now c.at.0) s.now c.at.0 result }
{
    let gap = text_scan::gap_at(s, c);
    let p = gap.next;
    let d = p.at;
    let b = text_chars::byte_at(s, d);
    if b == bytes::COLON {
        let value = behind(s, p);
        return Ok(value);
    }
    if b == bytes::EQUALS {
        let value = behind(s, p);
        return Ok(value);
    }
    if b == bytes::OPEN_BRACE {
        return Ok(p);
    }
    let number = not_allowed(s, p);
    Err(Refusal { number, place: d })
}

// ---- the keys that start with `include`

/// Whether the key here starts with `include` alone or before a dot.
pub fn starts_include(s: &[u8], c: Cursor) -> bool
    requires { (length s.now ≤ max_document) × (c.at.0 ≤ length s.now) }
    ensures { result ≡ starts_include s.now c.at.0 }
{
    let Some(end) = text_unquoted::spells_include(s, c) else {
        return false;
    };
    if text_unquoted::stops_unquoted(s, end) {
        return true;
    }
    let d = end.at;
    text_chars::byte_at(s, d) == bytes::DOT
}

// Unquoted text, and the words that are pieces of their own.
// Computes: Pieces
#![tactic(auto)]

ghost use Rattle.std.specs.Prelude.{◌≡◌, ◌∷◌, [], ◌≤◌, ◌<◌, length};
ghost use Rattle.answers.specs.Ask.{mem};
ghost use Rattle.rules.specs.Sizes.{max_document};
ghost use Rattle.rules.specs.Paths.{word_include};
ghost use Rattle.rules.specs.Pieces.{forbidden, stops_unquoted, starts_simple, unquoted_end, word_false};
ghost use Rattle.text_scan.specs.Scan.{EndIs};
ghost use Rattle.text_scan.specs.Walks.{Going};
ghost use Rattle.text_unquoted.specs.Clauses.{PlainIs, SpelledIs, WordIs};

use codes::{bytes, letters};
use text_chars::{Cursor, DocAt, Step};
use text_scan::{is_space, look, starts_comment};

// A character that unquoted text cannot have.
fn is_forbidden(ch: u32) -> bool
    ensures { result ≡ mem ch forbidden }
{
    match ch {
        bytes::EXCLAMATION..=bytes::DOLLAR
        | bytes::AMPERSAND
        | bytes::STAR..=bytes::COMMA
        | bytes::COLON
        | bytes::EQUALS
        | bytes::QUESTION..=bytes::AT_SIGN
        | bytes::OPEN_BRACKET..=bytes::CARET
        | bytes::BACKTICK
        | bytes::OPEN_BRACE
        | bytes::CLOSE_BRACE => true,
        _ => false,
    }
}

// ASCII that unquoted text goes over whatever stands behind it: letters, digits, `_`, `-` and `.`, the small letters first.
fn is_plain(b: u8) -> bool
    ensures { PlainIs b result }
{
    if b'a' <= b {
        return b <= b'z';
    }
    if b'A' <= b {
        if b <= b'Z' {
            return true;
        }
        return b == b'_';
    }
    if b'0' <= b {
        return b <= b'9';
    }
    if b < b'-' {
        return false;
    }
    b <= b'.'
}

/// Whether unquoted text goes no further than here.
pub fn stops_unquoted(s: &[u8], c: Cursor) -> bool
    requires { (length s.now ≤ max_document) × (c.at.0 ≤ length s.now) }
    ensures { result ≡ stops_unquoted s.now c.at.0 }
{
    let p = c.at.0;
    if p < s.len() {
        if is_plain(s[p]) {
            return false;
        }
    }
    let ch = look(s, c).ch;
    if ch == bytes::NO_CHARACTER {
        return true;
    }
    if is_space(ch) {
        return true;
    }
    if is_forbidden(ch) {
        return true;
    }
    starts_comment(s, c)
}

// The place after a run of unquoted text. The text may go on behind it.
fn plain_run(s: &[u8], c: Cursor) -> Cursor
    requires { c.at.0 ≤ length s.now }
    ensures { Going unquoted_end s.now c.at.0 result }
{
    for p in c.at.0..s.len() {
        if !is_plain(s[p]) {
            return Cursor { at: DocAt(p) };
        }
    }
    Cursor { at: DocAt(s.len()) }
}

/// The place after unquoted text.
pub fn unquoted_end(s: &[u8], c: Cursor) -> Cursor
    requires { (length s.now ≤ max_document) × (c.at.0 ≤ length s.now) }
    ensures { EndIs s.now c.at.0 (unquoted_end s.now c.at.0) result }
{
    let mut p = c;
    loop {
        let run = plain_run(s, p);
        if stops_unquoted(s, run) {
            return run;
        }
        p = look(s, run).next;
    }
}

/// Whether a simple piece begins here.
pub fn starts_simple(s: &[u8], c: Cursor) -> bool
    requires { (length s.now ≤ max_document) × (c.at.0 ≤ length s.now) }
    ensures { result ≡ starts_simple s.now c.at.0 }
{
    if look(s, c).ch == bytes::QUOTE {
        return true;
    }
    !stops_unquoted(s, c)
}

// ---- certain letters: the place after them, if they stand here

fn letter(s: &[u8], c: Cursor, a: u32) -> Option<Cursor>
    requires { (length s.now ≤ max_document) × (c.at.0 ≤ length s.now) × (a < 128) }
    ensures { SpelledIs (a ∷ []) s.now c.at.0 result }
{
    let Step { ch, next } = look(s, c);
    if ch == a {
        return Some(next);
    }
    None
}

fn four(s: &[u8], c: Cursor, a: u32, b: u32, d: u32, e: u32) -> Option<Cursor>
    requires { (length s.now ≤ max_document) × (c.at.0 ≤ length s.now) × (a < 128) × (b < 128) × (d < 128) × (e < 128) }
    ensures { SpelledIs (a ∷ b ∷ d ∷ e ∷ []) s.now c.at.0 result }
{
    let second = letter(s, c, a)?;
    let third = letter(s, second, b)?;
    let fourth = letter(s, third, d)?;
    letter(s, fourth, e)
}

fn spells_false(s: &[u8], c: Cursor) -> Option<Cursor>
    requires { (length s.now ≤ max_document) × (c.at.0 ≤ length s.now) }
    ensures { SpelledIs word_false s.now c.at.0 result }
{
    let second = letter(s, c, letters::F)?;
    four(s, second, letters::A, letters::L, letters::S, letters::E)
}

/// Whether `include` stands here.
pub fn spells_include(s: &[u8], c: Cursor) -> Option<Cursor>
    requires { (length s.now ≤ max_document) × (c.at.0 ≤ length s.now) }
    ensures { SpelledIs word_include s.now c.at.0 result }
{
    let second = letter(s, c, letters::I)?;
    let third = letter(s, second, letters::N)?;
    let fourth = letter(s, third, letters::C)?;
    four(s, fourth, letters::L, letters::U, letters::D, letters::E)
}

/// The word that unquoted text starts with, and the place after it.
#[derive(Clone, Copy)]
pub enum Word {
    // `true`
    True(Cursor),
    // `false`
    False(Cursor),
    // `null`
    Null(Cursor),
    // none of these
    Other,
}

/// The word at a place, by its first letter.
pub fn word_at(s: &[u8], c: Cursor) -> Word
    requires { (length s.now ≤ max_document) × (c.at.0 ≤ length s.now) }
    ensures { WordIs s.now c.at.0 result }
{
    let ch = look(s, c).ch;
    if ch == letters::T {
        return match four(s, c, letters::T, letters::R, letters::U, letters::E) {
            Some(end) => Word::True(end),
            None => Word::Other,
        };
    }
    if ch == letters::F {
        return match spells_false(s, c) {
            Some(end) => Word::False(end),
            None => Word::Other,
        };
    }
    if ch == letters::N {
        return match four(s, c, letters::N, letters::U, letters::L, letters::L) {
            Some(end) => Word::Null(end),
            None => Word::Other,
        };
    }
    Word::Other
}

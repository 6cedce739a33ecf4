// Scanning that needs no output: whitespace, comments and gaps. A place of a text goes forward by whole characters.
// Computes: Characters
#![tactic(auto)]

ghost use Rattle.std.specs.Prelude.{◌≡◌, ◌≤◌, ◌<◌, true, length};
ghost use Rattle.rules.specs.Sizes.{max_document};
ghost use Rattle.rules.specs.Characters.{is_wide_space, is_space, is_inline, starts_comment, after_inline, line_end};
ghost use Rattle.text_scan.specs.Scan.{SeenIs, EndIs, LineByte, BlockIs, BlanksIs, PassedIs, GapIs};
ghost use Rattle.text_scan.specs.Walks.{Going};

use codes::{bytes, spaces};
use text_chars::{Cursor, DocAt, Step, block_passes};

/// The character at a place, `bytes::NO_CHARACTER` at the end, and the place after it, which at the end is the end.
pub fn look(s: &[u8], c: Cursor) -> Step
    requires { (length s.now ≤ max_document) × (c.at.0 ≤ length s.now) }
    ensures { SeenIs s.now c.at.0 result }
{
    c.step(s).unwrap_or(Step {
        ch: bytes::NO_CHARACTER,
        next: c,
    })
}

// ---- whitespace, comments, gaps

// Whitespace past ASCII, in the order of the characters.
fn is_wide_space(ch: u32) -> bool
    ensures { result ≡ is_wide_space ch }
{
    if ch == spaces::NO_BREAK_SPACE {
        return true;
    }
    if ch == spaces::OGHAM_SPACE_MARK {
        return true;
    }
    if ch < spaces::EN_QUAD {
        return false;
    }
    if ch <= spaces::HAIR_SPACE {
        return true;
    }
    if ch < spaces::LINE_SEPARATOR {
        return false;
    }
    if ch <= spaces::PARAGRAPH_SEPARATOR {
        return true;
    }
    if ch == spaces::NARROW_NO_BREAK_SPACE {
        return true;
    }
    if ch == spaces::MEDIUM_MATHEMATICAL_SPACE {
        return true;
    }
    if ch == spaces::IDEOGRAPHIC_SPACE {
        return true;
    }
    ch == spaces::BYTE_ORDER_MARK
}

/// Whitespace, newlines too. What most texts are made of is decided first.
pub fn is_space(ch: u32) -> bool
    ensures { result ≡ is_space ch }
{
    if ch > bytes::SPACE {
        if ch < bytes::NOT_ASCII {
            return false;
        }
        return is_wide_space(ch);
    }
    if ch == bytes::SPACE {
        return true;
    }
    if ch < bytes::TAB {
        return false;
    }
    if ch <= bytes::CARRIAGE_RETURN {
        return true;
    }
    // the second range ends next to the space
    ch >= bytes::FILE_SEPARATOR
}

// Whitespace but newline.
fn is_inline(ch: u32) -> bool
    ensures { result ≡ is_inline ch }
{
    if is_space(ch) {
        return ch != bytes::NEWLINE;
    }
    false
}

/// The place after the whitespace but newlines.
pub fn after_inline(s: &[u8], c: Cursor) -> Cursor
    requires { (length s.now ≤ max_document) × (c.at.0 ≤ length s.now) }
    ensures { EndIs s.now c.at.0 (after_inline s.now c.at.0) result }
{
    let mut p = c;
    loop {
        let here = look(s, p);
        if is_inline(here.ch) {
            p = here.next;
        } else {
            return p;
        }
    }
}

/// Whether a comment begins here.
pub fn starts_comment(s: &[u8], c: Cursor) -> bool
    requires { (length s.now ≤ max_document) × (c.at.0 ≤ length s.now) }
    ensures { result ≡ starts_comment s.now c.at.0 }
{
    let here = look(s, c);
    if here.ch == bytes::HASH {
        return true;
    }
    if here.ch == bytes::SLASH {
        return look(s, here.next).ch == bytes::SLASH;
    }
    false
}

// The bytes of a block of a comment.
const BLOCK: usize = 32;

const NEWLINE: u8 = bytes::NEWLINE as u8;

const NOT_ASCII: u8 = bytes::NOT_ASCII as u8;

// A byte that a run of a comment goes over: one of ASCII, and no newline.
fn is_plain(b: u8) -> bool
    ensures { result ≡ true → LineByte b }
{
    if b == NEWLINE {
        return false;
    }
    b < NOT_ASCII
}

// Whether a block stands at a place, all of it ASCII and no newline.
fn line_block(s: &[u8], at: usize) -> bool
    ensures { BlockIs s.now at result }
{
    block_passes::<BLOCK, _>(s, at, is_plain)
}

// The place after the blocks of a comment.
fn line_blocks(s: &[u8], c: Cursor) -> Cursor
    requires { c.at.0 ≤ length s.now }
    ensures { Going line_end s.now c.at.0 result }
{
    let mut p = c.at.0;
    while line_block(s, p) {
        p += BLOCK;
    }
    Cursor { at: DocAt(p) }
}

// The place after a run of a comment: blocks, then single bytes. The comment may go on behind it.
fn line_run(s: &[u8], c: Cursor) -> Cursor
    requires { c.at.0 ≤ length s.now }
    ensures { Going line_end s.now c.at.0 result }
{
    for p in line_blocks(s, c).at.0..s.len() {
        if !is_plain(s[p]) {
            return Cursor { at: DocAt(p) };
        }
    }
    Cursor { at: DocAt(s.len()) }
}

// The newline that ends a comment, or the end of the text.
fn line_end(s: &[u8], c: Cursor) -> Cursor
    requires { (length s.now ≤ max_document) × (c.at.0 ≤ length s.now) }
    ensures { EndIs s.now c.at.0 (line_end s.now c.at.0) result }
{
    let mut p = c;
    loop {
        let run = line_run(s, p);
        let here = look(s, run);
        if here.ch == bytes::NEWLINE {
            return run;
        }
        if here.ch == bytes::NO_CHARACTER {
            return run;
        }
        p = here.next;
    }
}

/// A gap: the place after it, and whether a newline was in it.
#[derive(Clone, Copy)]
pub struct Gap {
    pub next: Cursor,
    pub newline: bool,
}

const BLANK: u8 = bytes::SPACE as u8;

// The place after the blanks.
fn after_blanks(s: &[u8], c: Cursor) -> Cursor
    requires { c.at.0 ≤ length s.now }
    ensures { BlanksIs s.now c.at.0 result }
{
    for p in c.at.0..s.len() {
        if s[p] != BLANK {
            return Cursor { at: DocAt(p) };
        }
    }
    Cursor { at: DocAt(s.len()) }
}

// The gap with one character of whitespace and the blanks behind it, or with one comment more; none where neither stands. What most
// members begin with is decided first.
fn pass(s: &[u8], g: Gap) -> Option<Gap>
    requires { (length s.now ≤ max_document) × (g.next.at.0 ≤ length s.now) }
    ensures { PassedIs s.now g result }
{
    let Step { ch, next } = look(s, g.next);
    if ch > bytes::SLASH {
        if ch < bytes::NOT_ASCII {
            return None;
        }
    }
    if ch == bytes::NEWLINE {
        return Some(Gap {
            next,
            newline: true,
        });
    }
    if is_space(ch) {
        return Some(Gap {
            next: after_blanks(s, next),
            ..g
        });
    }
    if starts_comment(s, g.next) {
        return Some(Gap {
            next: line_end(s, g.next),
            ..g
        });
    }
    None
}

/// The gap from a place on: whitespace, newlines and comments.
pub fn gap_at(s: &[u8], c: Cursor) -> Gap
    requires { (length s.now ≤ max_document) × (c.at.0 ≤ length s.now) }
    ensures { GapIs s.now c.at.0 result }
{
    let mut g = Gap {
        next: c,
        newline: false,
    };
    while let Some(more) = pass(s, g) {
        g = more;
    }
    g
}

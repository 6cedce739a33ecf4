// JSON numbers.
// Computes: Numbers
#![tactic(auto)]

ghost use Rattle.std.specs.Prelude.{◌≡◌, ◌≤◌, length};
ghost use Rattle.rules.specs.Sizes.{max_document};
ghost use Rattle.rules.specs.Numbers.{is_digit, after_digits, after_int, after_fraction, after_sign, after_exponent, after_number};
ghost use Rattle.text_scan.specs.Scan.{EndIs};
ghost use Rattle.text_numbers.specs.Clauses.{is_sign, is_exponent, after_unsigned, NumberIs};

use codes::{bytes, letters};
use text_chars::{Cursor, Step};
use text_scan::look;

/// A decimal digit.
pub fn is_digit(ch: u32) -> bool
    ensures { result ≡ is_digit ch }
{
    if ch < bytes::ZERO {
        return false;
    }
    ch <= bytes::NINE
}

// The place after the digits.
fn after_digits(s: &[u8], c: Cursor) -> Cursor
    requires { (length s.now ≤ max_document) × (c.at.0 ≤ length s.now) }
    ensures { EndIs s.now c.at.0 (after_digits s.now c.at.0) result }
{
    let mut p = c;
    loop {
        let here = look(s, p);
        if is_digit(here.ch) {
            p = here.next;
        } else {
            return p;
        }
    }
}

/// A zero alone, or digits that start with none.
pub fn after_int(s: &[u8], c: Cursor) -> Option<Cursor>
    requires { (length s.now ≤ max_document) × (c.at.0 ≤ length s.now) }
    ensures { NumberIs s.now c.at.0 (after_int s.now c.at.0) result }
{
    let Step { ch, next } = look(s, c);
    if ch == bytes::ZERO {
        return Some(next);
    }
    if is_digit(ch) {
        return Some(after_digits(s, next));
    }
    None
}

/// The fraction, if there is one: a dot and at least one digit.
pub fn after_fraction(s: &[u8], int: Cursor) -> Cursor
    requires { (length s.now ≤ max_document) × (int.at.0 ≤ length s.now) }
    ensures { EndIs s.now int.at.0 (after_fraction s.now int.at.0) result }
{
    let Step { ch, next } = look(s, int);
    if ch == bytes::DOT {
        if is_digit(look(s, next).ch) {
            return after_digits(s, next);
        }
        return int;
    }
    int
}

fn is_sign(ch: u32) -> bool
    ensures { result ≡ is_sign ch }
{
    if ch == bytes::PLUS {
        return true;
    }
    ch == bytes::MINUS
}

// The place after a sign, if there is one.
fn after_sign(s: &[u8], c: Cursor) -> Cursor
    requires { (length s.now ≤ max_document) × (c.at.0 ≤ length s.now) }
    ensures { EndIs s.now c.at.0 (after_sign s.now c.at.0) result }
{
    let Step { ch, next } = look(s, c);
    if is_sign(ch) {
        return next;
    }
    c
}

fn is_exponent(ch: u32) -> bool
    ensures { result ≡ is_exponent ch }
{
    if ch == letters::CAPITAL_E {
        return true;
    }
    ch == letters::E
}

// The exponent, if there is one: e or E, a sign or none, at least one digit.
fn after_exponent(s: &[u8], c: Cursor) -> Cursor
    requires { (length s.now ≤ max_document) × (c.at.0 ≤ length s.now) }
    ensures { EndIs s.now c.at.0 (after_exponent s.now c.at.0) result }
{
    let Step { ch, next } = look(s, c);
    if is_exponent(ch) {
        let digits = after_sign(s, next);
        if is_digit(look(s, digits).ch) {
            return after_digits(s, digits);
        }
        return c;
    }
    c
}

// A number but its minus.
fn after_unsigned(s: &[u8], c: Cursor) -> Option<Cursor>
    requires { (length s.now ≤ max_document) × (c.at.0 ≤ length s.now) }
    ensures { NumberIs s.now c.at.0 (after_unsigned s.now c.at.0) result }
{
    let int = after_int(s, c)?;
    let fraction = after_fraction(s, int);
    Some(after_exponent(s, fraction))
}

/// The place after the longest JSON number here.
pub fn after_number(s: &[u8], c: Cursor) -> Option<Cursor>
    requires { (length s.now ≤ max_document) × (c.at.0 ≤ length s.now) }
    ensures { NumberIs s.now c.at.0 (after_number s.now c.at.0) result }
{
    let Step { ch, next } = look(s, c);
    if ch == bytes::MINUS {
        return after_unsigned(s, next);
    }
    after_unsigned(s, c)
}

// The form of a length: a decimal number at a text's start, whitespace, a unit at the text's end.
// Computes: Micrometres (decimal_of, after_space, unit_at)
ghost use Rattle.std.specs.Prelude.{◌≤◌, length};
ghost use Rattle.rules.specs.Sizes.{max_document};
ghost use Rattle.rules.specs.Micrometres.{after_space, unit_of, unit_at};
ghost use Rattle.text_scan.specs.Scan.{EndIs};
ghost use Rattle.text_lengths.specs.Decimals.Contracts.{DecimalFrom, DecimalIs, UnitIs};

use codes::{bytes, letters, units};
use text_chars::{Cursor, DocAt, Step, byte_at};
use text_scan::look;

/// A decimal number: whether it has a minus, and the places of its first digit, after its digits before the dot, and after it. A length's
/// text is read as a document is, by a cursor, and these are places in that text alone.
#[derive(Clone, Copy)]
pub struct Decimal {
    pub minus: bool,
    pub first: DocAt,
    pub point: DocAt,
    pub end: DocAt,
}

// The number whose first digit is to stand here.
fn decimal_from(s: &[u8], minus: bool, first: Cursor) -> Option<Decimal>
    requires { (length s.now ≤ max_document) × (first.at.0 ≤ length s.now) }
    ensures { DecimalFrom s.now minus first.at.0 result }
{
    let point = text_numbers::after_int(s, first)?;
    let end = text_numbers::after_fraction(s, point);
    Some(Decimal {
        minus,
        first: first.at,
        point: point.at,
        end: end.at,
    })
}

/// The number that a text begins with, if it does.
pub fn decimal_of(s: &[u8]) -> Option<Decimal>
    requires { length s.now ≤ max_document }
    ensures { DecimalIs s.now result }
{
    let Step { ch, next } = look(s, Cursor { at: DocAt(0) });
    if ch == bytes::MINUS {
        return decimal_from(s, true, next);
    }
    decimal_from(s, false, Cursor { at: DocAt(0) })
}

/// The place after the whitespace, newlines too.
pub fn after_space(s: &[u8], c: Cursor) -> Cursor
    requires { (length s.now ≤ max_document) × (c.at.0 ≤ length s.now) }
    ensures { EndIs s.now c.at.0 (after_space s.now c.at.0) result }
{
    let mut p = c;
    loop {
        let here = look(s, p);
        if text_scan::is_space(here.ch) {
            p = here.next;
        } else {
            return p;
        }
    }
}

// The micrometres of the unit of two letters.
fn unit_of(first: u32, second: u32) -> Option<u32>
    ensures { UnitIs (unit_of first second) result }
{
    if first == letters::M {
        if second == letters::M {
            return Some(units::MILLIMETRE);
        }
        return None;
    }
    if first == letters::U {
        if second == letters::M {
            return Some(units::MICROMETRE);
        }
        return None;
    }
    if first == letters::I {
        if second == letters::N {
            return Some(units::INCH);
        }
        return None;
    }
    None
}

/// The micrometres of the unit with which a text ends, from a place on.
pub fn unit_at(s: &[u8], c: Cursor) -> Option<u32>
    requires { (length s.now ≤ max_document) × (c.at.0 ≤ length s.now) }
    ensures { UnitIs (unit_at s.now c.at.0) result }
{
    let at = c.at.0;
    if s.len() == at + 2 {
        return unit_of(byte_at(s, c.at), byte_at(s, DocAt(at + 1)));
    }
    None
}

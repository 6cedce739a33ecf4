// The texts of a profile's settings: its edition, the unit of edition 1, and the lengths of both editions.
// Computes: Profile (edition_of, step_of, bare_length, written_length)
#![tactic(auto)]

ghost use Rattle.std.specs.Prelude.{◌≡◌, ◌≤◌, length};
ghost use Rattle.std.proofs.Math.Option.{some};
ghost use Rattle.rules.specs.Sizes.{max_document};
ghost use Rattle.rules_profile.specs.Profile.{thousandth, edition_of, step_of, bare_length, written_length};
ghost use Rattle.text_profiles.specs.Clauses.{max_length, edition_as, LengthIs};

use codes::{profiles, units};
use text_bytes::same_bytes;
use text_chars::{Cursor, DocAt};
use text_lengths::micrometres::whole_part;
use text_numbers::after_int;

/// An edition that a file may name.
#[derive(Clone, Copy)]
pub enum Edition {
    /// 1.
    First,
    /// 2.
    Second,
}

/// The edition that a number's text names.
pub fn edition_of(s: &[u8]) -> Option<Edition>
    ensures { edition_as result ≡ edition_of (some s.now) }
{
    if same_bytes(s, b"1") {
        return Some(Edition::First);
    }
    if same_bytes(s, b"2") {
        return Some(Edition::Second);
    }
    None
}

// ---- lengths, in ten-thousandths of a millimetre

/// What one is that a bare length counts, by the text of `unit`.
pub fn step_of(s: &[u8]) -> Option<u32>
    ensures { LengthIs (step_of (some s.now)) thousandth result }
{
    if same_bytes(s, b"mm") {
        return Some(profiles::HUNDREDTH);
    }
    if same_bytes(s, b"in") {
        return Some(profiles::THOUSANDTH);
    }
    None
}

/// A bare length, in digits only.
pub fn bare_length(s: &[u8], step: u32) -> Option<u32>
    requires { (length s.now ≤ max_document) × (step ≤ thousandth) }
    ensures { LengthIs (bare_length step (some s.now)) max_length result }
{
    let end = after_int(s, Cursor { at: DocAt(0) })?;
    if end.at.0 != s.len() {
        return None;
    }
    let count = whole_part(s, DocAt(0), end.at, units::MICROMETRE);
    if profiles::MOST_BARE < count {
        return None;
    }
    Some(count * step)
}

/// A length with its unit.
pub fn written_length(s: &[u8]) -> Option<u32>
    requires { length s.now ≤ max_document }
    ensures { LengthIs (written_length (some s.now)) max_length result }
{
    let Ok(n) = text_lengths::length_of(s, true) else {
        return None;
    };
    Some(n * profiles::MICROMETRE)
}

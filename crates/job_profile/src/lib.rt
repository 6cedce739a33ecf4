// The profile of a table, in its two editions: the job, and the 64 bits of its answer that C gets.
// Computes: Profile (profile_job)
#![tactic(auto)]

ghost use Rattle.std.specs.Prelude.{◌≡◌, [], ◌∷◌};
ghost use Rattle.rules.specs.LookUp.{member_at};
ghost use Rattle.rules_profile.specs.Profile.{plate, text_of_kind, text_named, limits_of, first_edition, second_edition, profile_job};
ghost use Rattle.text_profiles.specs.Clauses.{length_as};
ghost use Rattle.job_length.specs.Clauses.{WholeTable};
ghost use Rattle.job_profile.specs.Clauses.{ValueAt, TextKind, TextIs, profile_of, ProfileIs};
ghost use Rattle.job_profile.specs.Packed.{Packable, packed_profile};

use codes::{kinds, limits, profiles, refusals};
use sheet_records::kinds::pair_at;
use text_chars::{RecAt, Refusal, TextLen, record_byte};
use text_lengths::micrometres::no_length as no_profile;
use text_profiles::{Edition, bare_length, written_length};

/// A table's profile: its edition, and both limits in ten-thousandths of a millimetre.
#[derive(Clone, Copy)]
pub struct Limits {
    pub edition: u8,
    pub minimum: u32,
    pub maximum: u32,
}

// The kinds of records that refer to a text are a number and a string.
const NUMBER: u32 = kinds::NUMBER as u32;

const STRING: u32 = kinds::STRING as u32;

// The text of a key's value in the object at a place, if it is of a kind. Else it is empty, and so no edition, no unit and no length.
fn member_text<'a>(table: &[u8], text: &'a [u8], key: &[u8], kind: u32, at: RecAt) -> &'a [u8]
    requires { WholeTable table.now text.now × ValueAt table.now text.now at.0 × TextKind kind }
    ensures { TextIs (text_of_kind table.now text.now kind
        (member_at table.now text.now key.now at.0)) result.now }
{
    match sheet_records::member(table, text, key, at) {
        None => &text[0..0],
        Some(value) => {
            let p = value.0;
            if record_byte(table, value) == kind {
                let from = pair_at(table, RecAt(p + 1));
                let to = from + pair_at(table, RecAt(p + 3));
                return &text[from..to];
            }
            &text[0..0]
        }
    }
}

// The text of a member of `plate`, if it is of a kind. Else it is empty.
fn plate_text<'a>(table: &[u8], text: &'a [u8], key: &[u8], kind: u32) -> &'a [u8]
    requires { WholeTable table.now text.now × TextKind kind }
    ensures { TextIs (text_named table.now text.now kind (plate ∷ key.now ∷ [])) result.now }
{
    match sheet_records::member(table, text, b"plate", RecAt(0)) {
        None => &text[0..0],
        Some(place) => member_text(table, text, key, kind, place),
    }
}

// Both limits of an edition, of which each may be missing.
fn limits_of(edition: u8, low: Option<u32>, high: Option<u32>) -> Result<Limits, Refusal>
    ensures { ProfileIs (limits_of edition (length_as low) (length_as high)) result }
{
    match low {
        None => Err(no_profile(refusals::BAD_MINIMUM)),
        Some(minimum) => match high {
            None => Err(no_profile(refusals::BAD_MAXIMUM)),
            Some(maximum) => {
                if maximum < minimum {
                    return Err(no_profile(refusals::MINIMUM_ABOVE_MAXIMUM));
                }
                Ok(Limits {
                    edition,
                    minimum,
                    maximum,
                })
            }
        },
    }
}

// Edition 1: bare lengths, by `unit`.
fn first_edition(table: &[u8], text: &[u8]) -> Result<Limits, Refusal>
    requires { WholeTable table.now text.now }
    ensures { ProfileIs (first_edition table.now text.now) result }
{
    match text_profiles::step_of(member_text(table, text, b"unit", STRING, RecAt(0))) {
        None => Err(no_profile(refusals::BAD_UNIT)),
        Some(step) => {
            let low = bare_length(plate_text(table, text, b"min", NUMBER), step);
            let high = bare_length(plate_text(table, text, b"max", NUMBER), step);
            limits_of(profiles::FIRST, low, high)
        }
    }
}

// Edition 2: no `unit`, and lengths with their own.
fn second_edition(table: &[u8], text: &[u8]) -> Result<Limits, Refusal>
    requires { WholeTable table.now text.now }
    ensures { ProfileIs (second_edition table.now text.now) result }
{
    match sheet_records::member(table, text, b"unit", RecAt(0)) {
        Some(_) => Err(no_profile(refusals::BAD_UNIT)),
        None => {
            let low = written_length(plate_text(table, text, b"min", STRING));
            let high = written_length(plate_text(table, text, b"max", STRING));
            limits_of(profiles::SECOND, low, high)
        }
    }
}

/// The profile of a table: what the rules of the job give, for any bytes.
pub fn profile(table: &[u8], text: &[u8]) -> Result<Limits, Refusal>
    ensures { ProfileIs (profile_job table.now text.now) result }
{
    if limits::ROOM < table.len() {
        return Err(no_profile(refusals::BAD_INPUT));
    }
    if limits::ROOM < text.len() {
        return Err(no_profile(refusals::BAD_INPUT));
    }
    if sheet_records::is_whole(table, TextLen(text.len())) {
        match text_profiles::edition_of(member_text(table, text, b"profile", NUMBER, RecAt(0))) {
            Some(Edition::First) => first_edition(table, text),
            Some(Edition::Second) => second_edition(table, text),
            None => Err(no_profile(refusals::BAD_PROFILE)),
        }
    } else {
        Err(no_profile(refusals::NOT_A_TABLE))
    }
}

// The lowest bits of what is packed above the number: the edition and both limits.
const EDITION: u64 = 64;

const MINIMUM: u64 = 256;

const MAXIMUM: u64 = 256 * 33554432;

/// A profile's or a refusal's 64 bits.
pub fn pack_profile(read: Result<Limits, Refusal>) -> u64
    requires { Packable read }
    ensures { result ≡ packed_profile (profile_of read) }
{
    match read {
        Ok(limits) => limits.edition as u64 * EDITION
            + limits.minimum as u64 * MINIMUM
            + limits.maximum as u64 * MAXIMUM,
        Err(refusal) => refusal.number as u64,
    }
}

// The answers of resolve and check, where a refusal is, and the 64 bits of them that C gets. A refusal's place is here one number, 65,536 times
// the document's and the offset in it.
// Computes: Jobs (Resolved, Verdict), Positions (has_place, lineOf, column_of)
#![tactic(auto)]

ghost use Rattle.std.specs.Prelude.{◌≡◌};
ghost use Rattle.rules.specs.Positions.{has_place};
ghost use Rattle.job_results.specs.Answers.{resolution_told, located_told, packed_resolution, Packable};
ghost use Rattle.job_results.specs.Answers.{verdict_of, packed_verdict, PackableVerdict};
ghost use Rattle.job_results.specs.Places.{PlaceAsked, PlaceIs, RefusalFits, PackedRefusalIs};

use codes::refusals;
use text_chars::{DocAt, RecLen, Refusal, TextLen};

/// What resolve comes to, a sheet: how many unresolved values were begun, and how many bytes of each part are used.
#[derive(Clone, Copy)]
pub struct Resolution {
    pub count: usize,
    pub trail: RecLen,
    pub table: RecLen,
    pub text: TextLen,
}

/// Where a refusal is: a document's number, an offset in it, its line and its column. All are 0 where it has no place in a document.
#[derive(Clone, Copy)]
pub struct Place {
    pub document: usize,
    pub offset: DocAt,
    pub line: usize,
    pub column: usize,
}

// How many places there are of one document.
const PER_DOCUMENT: usize = 65536;

// Whether a refusal has a place in a document, by its number.
fn has_place(number: u8) -> bool
    ensures { result ≡ has_place number }
{
    if number < refusals::ILL_FORMED_UTF8 {
        return false;
    }
    number <= refusals::OVER_BUDGET
}

/// Where a refusal is in a document.
pub fn place_of(document: &[u8], number: u8, place: DocAt) -> Place
    requires { PlaceAsked document.now number }
    ensures { PlaceIs document.now number place.0 result }
{
    let p = place.0;
    let offset = DocAt(p % PER_DOCUMENT);
    if has_place(number) {
        let here = text_chars::position_of(document, offset);
        return Place {
            document: p / PER_DOCUMENT,
            offset,
            line: here.line,
            column: here.column,
        };
    }
    Place {
        document: p / PER_DOCUMENT,
        offset,
        line: 0,
        column: 0,
    }
}

// The lowest bits of what is packed above the number: a refusal's offset, document, line and column; or the count, and each part's length.
const OFFSET: u64 = 64;

const DOCUMENT: u64 = 64 * 65536;

const LINE: u64 = 64 * 65536 * 16;

const COLUMN: u64 = 64 * 65536 * 16 * 65536;

const COUNT: u64 = 64;

const TRAIL: u64 = 64 * 512;

const TABLE: u64 = 64 * 512 * 65536;

const TEXT: u64 = 64 * 512 * 65536 * 65536;

// A refusal's 64 bits.
fn pack_refusal(document: &[u8], refusal: Refusal) -> u64
    requires { RefusalFits document.now refusal.number refusal.place.0 }
    ensures { PackedRefusalIs document.now refusal.number refusal.place.0 result }
{
    let at = place_of(document, refusal.number, refusal.place);
    let n = refusal.number as u64;
    let o = at.offset.0 as u64;
    let d = at.document as u64;
    let l = at.line as u64;
    let c = at.column as u64;
    n + o * OFFSET + d * DOCUMENT + l * LINE + c * COLUMN
}

/// The 64 bits of a document's resolution, or of its refusal.
pub fn pack_resolution(document: &[u8], resolution: Result<Resolution, Refusal>) -> u64
    requires { Packable document.now resolution }
    ensures { result ≡ packed_resolution (located_told document.now (resolution_told resolution)) }
{
    match resolution {
        Ok(sheet) => {
            let n = sheet.count as u64;
            let s = sheet.trail.0 as u64;
            let t = sheet.table.0 as u64;
            let x = sheet.text.0 as u64;
            n * COUNT + s * TRAIL + t * TABLE + x * TEXT
        }
        Err(refusal) => pack_refusal(document, refusal),
    }
}

/// The 64 bits of the verdict on a document's sheet.
pub fn pack_verdict(document: &[u8], verdict: Result<(), Refusal>) -> u64
    requires { PackableVerdict document.now verdict }
    ensures { result ≡ packed_verdict (verdict_of document.now verdict) }
{
    match verdict {
        Ok(()) => 0,
        Err(refusal) => pack_refusal(document, refusal),
    }
}

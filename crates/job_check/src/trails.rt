// A lent sheet held against a document in memory: the entries of its trail one after another, each evaluated against those that were found
// right before it, and then its table.
// Computes: Checking (entries_from, accepted)
ghost use Rattle.job_check.specs.Trails.Contracts.{CaseAsked, CaseIs, EntryAsked, EntryIs, TrailAsked, TrailIs, SheetAsked, SheetIs};

use check_entries::{Reached, check_answer, check_undefined, next_number};
use codes::refusals;
use eval_results::sizes::Outcome;
use eval_state::item_of;
use eval_unresolved::unresolved_value;
use job_root::check_root;
use text_chars::{DocAt, RecAt, Refusal, TextAt};

// The outcome of question b held against its entry; a value of it is in the room.
fn check_outcome(
    table: &mut [u16],
    bytes: &mut [u8],
    room: &[u8],
    outcome: Outcome,
    b: usize,
    at: Reached,
    trail: &[u8],
    text: &[u8],
) -> Option<Reached>
    requires { CaseAsked table.old bytes.old room.now outcome b at trail.now text.now }
    ensures { CaseIs room.now outcome b at trail.now text.now
        table.old table.new bytes.old bytes.new result }
{
    match outcome {
        Outcome::Done(e) => { check_answer(table, bytes, room, e.out, b, at, trail, text) }
        Outcome::Undefined => check_undefined(table, b, at, trail),
        Outcome::Needs(d) => None,
        Outcome::Refused { number, place } => None,
    }
}

// The entry that begins behind those so far: its number is to have no answer yet, and is evaluated.
fn check_entry(
    table: &mut [u16],
    bytes: &mut [u8],
    environment: &[u8],
    work: &mut [u16],
    room: &mut [u8],
    count: usize,
    at: Reached,
    trail: &[u8],
    text: &[u8],
) -> Option<Reached>
    requires { EntryAsked table.old bytes.old environment.now work.old room.old count at trail.now text.now }
    ensures { EntryIs environment.now count at trail.now text.now
        table.old table.new bytes.old bytes.new result }
{
    let b = next_number(table, trail, at.used, count)?;
    let item = item_of(table, b);
    let outcome = unresolved_value(table, bytes, environment, work, 0, room, item);
    check_outcome(table, bytes, room, outcome, b, at, trail, text)
}

// All entries of a trail, in a document of so many unresolved values.
fn check_trail(
    table: &mut [u16],
    bytes: &mut [u8],
    environment: &[u8],
    work: &mut [u16],
    room: &mut [u8],
    count: usize,
    trail: &[u8],
    text: &[u8],
) -> Option<Reached>
    requires { TrailAsked table.old bytes.old environment.now work.old room.old count trail.now text.now }
    ensures { TrailIs environment.now count trail.now text.now
        table.old table.new bytes.old bytes.new work.new room.new result }
{
    let mut at = Reached {
        used: RecAt(0),
        text: TextAt(0),
    };
    while at.used.0 < trail.len() {
        at = check_entry(
            table,
            bytes,
            environment,
            work,
            room,
            count,
            at,
            trail,
            text,
        )?;
    }
    Some(at)
}

/// A sheet against a document of so many unresolved values that stands in memory, with nothing answered yet.
pub fn check_sheet(
    numbers: &mut [u16],
    bytes: &mut [u8],
    environment: &[u8],
    work: &mut [u16],
    room: &mut [u8],
    count: usize,
    trail: &[u8],
    table: &[u8],
    text: &[u8],
) -> Result<(), Refusal>
    requires { SheetAsked numbers.old bytes.old environment.now work.old room.old count trail.now text.now }
    ensures { SheetIs environment.now count trail.now table.now text.now
        numbers.old bytes.old result }
{
    if let Some(at) = check_trail(numbers, bytes, environment, work, room, count, trail, text) {
        if check_root(numbers, bytes, work, room, at.text, table, text) {
            return Ok(());
        }
    }
    Err(Refusal {
        number: refusals::NOT_ACCEPTED,
        place: DocAt(0),
    })
}

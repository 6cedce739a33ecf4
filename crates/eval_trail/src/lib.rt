// The order of working out: an unresolved value that is needed is begun, and when it is answered its entry is laid into the trail and its
// answer is kept.
// Computes: Jobs (orderOf), Sheet (trail_fits)
#![tactic(auto)]

pub mod turns;

ghost use Rattle.eval_trail.specs.Clauses.{PlaceAsked, PlaceIs, BeginAsked, BeginIs, RoomAsked, RoomIs, MoreIs, LayAsked, LayIs, NoneAsked, NoneIs};

use codes::refusals;
use doc_items::{COLUMN_PLACE, WIDTH, number_at};
use eval_state::BEGUN;
use eval_writer::Out;
use sheet_sizes::{ENTRY, Sizes};
use text_chars::{DocAt, RecAt, RecLen, Refusal, TextAt, TextLen};

/// How much of the trail and of the sheet's text is used, and how many unresolved values were begun.
#[derive(Clone, Copy)]
pub struct Progress {
    pub used: RecAt,
    pub text: TextAt,
    pub begun: usize,
}

// The mark of an unresolved value that was begun.
const MARK: u16 = 1;

// The first byte of an unresolved value: its first piece's item, behind its own, has it.
fn place_of(table: &[u16], b: usize) -> DocAt
    requires { PlaceAsked b }
    ensures { PlaceIs table.now b result.0 }
{
    let item = number_at(table, doc_items::INDEX + b);
    let place = number_at(table, WIDTH * (item + 1) + COLUMN_PLACE);
    DocAt(place)
}

/// Begins the unresolved value b, which has no answer: 10 if it was begun before, 12 if the budget is spent.
pub fn begin(table: &mut [u16], b: usize, at: Progress, budget: usize) -> Result<Progress, Refusal>
    requires { BeginAsked table.old b }
    ensures { BeginIs b at budget table.old table.new result }
{
    let place = place_of(table, b);
    let mark = number_at(table, BEGUN + b);
    if mark != 0 {
        return Err(Refusal {
            number: refusals::CIRCULAR,
            place,
        });
    }
    if budget <= at.begun {
        return Err(Refusal {
            number: refusals::OVER_BUDGET,
            place,
        });
    }
    table[BEGUN + b] = MARK;
    Ok(Progress {
        begun: at.begun + 1,
        ..at
    })
}

// Whether one entry more, whose answer was written up to o, fits the trail and the text part.
fn has_room(at: Progress, o: Out, trail: &[u8], text: &[u8]) -> bool
    requires { RoomAsked at o }
    ensures { RoomIs at o trail.now text.now result }
{
    let rooms = Sizes {
        rec: RecLen(trail.len()),
        text: TextLen(text.len()),
    };
    let so_far = Sizes {
        rec: RecLen(at.used.0),
        text: TextLen(at.text.0),
    };
    let size = Sizes {
        rec: RecLen(o.rec.0),
        text: TextLen(o.text.0),
    };
    sheet_sizes::entry_fits(rooms, so_far, size)
}

// How much is used with this entry more.
fn with_entry(at: Progress, o: Out) -> Progress
    requires { RoomAsked at o }
    ensures { MoreIs at o result }
{
    Progress {
        used: RecAt(at.used.0 + ENTRY + o.rec.0),
        text: TextAt(at.text.0 + o.text.0),
        ..at
    }
}

/// Lays the value in the room as the answer of b, and keeps it: 14 if its entry does not fit the trail or its texts the text part.
pub fn lay_answer(
    table: &mut [u16],
    bytes: &mut [u8],
    room: &[u8],
    o: Out,
    b: usize,
    at: Progress,
    trail: &mut [u8],
    text: &mut [u8],
) -> Result<Progress, Refusal>
    requires { LayAsked table.old bytes.old room.now o b at trail.old text.old }
    ensures { LayIs room.now o b at
        table.old table.new bytes.old bytes.new
        trail.old trail.new text.old text.new result }
{
    if has_room(at, o, trail, text) {
        eval_store::entries::add_entry(room, o, b, at.used, at.text, trail, text);
        eval_state::keep_answer(table, bytes, room, o, b, at.used, at.text);
        return Ok(with_entry(at, o));
    }
    Err(Refusal {
        number: refusals::NO_ROOM,
        place: DocAt(0),
    })
}

/// Lays that b is undefined, and keeps it: 14 if its entry does not fit the trail.
pub fn lay_undefined(
    table: &mut [u16],
    b: usize,
    at: Progress,
    trail: &mut [u8],
    text: &[u8],
) -> Result<Progress, Refusal>
    requires { NoneAsked table.old b at trail.old text.now }
    ensures { NoneIs b at
        table.old table.new trail.old trail.new text.now result }
{
    let nothing = Out {
        rec: RecAt(0),
        text: TextAt(0),
    };
    if has_room(at, nothing, trail, text) {
        eval_store::entries::add_undefined(b, at.used, trail);
        eval_state::keep_undefined(table, b);
        return Ok(with_entry(at, nothing));
    }
    Err(Refusal {
        number: refusals::NO_ROOM,
        place: DocAt(0),
    })
}

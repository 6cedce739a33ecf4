// The root's value against the answers so far, and what the jobs do with it: check holds it against the lent table, and resolve, whose root is
// settled then, hands it back.
// Computes: Unresolved (root_value), Checking (table_accepted), Jobs (resolved)
#![tactic(auto)]

pub mod output;

ghost use Rattle.job_root.specs.Clauses.{RootAsked, RootIs, CheckRootAsked, CheckRootIs, HandRootAsked, HandRootIs};

use crate::output::hand_back;
use check_entries::tables::check_table;
use codes::refusals;
use eval_results::values::Worked;
use eval_trail::Progress;
use eval_values::LEVELS;
use eval_values::objects::node_value;
use eval_writer::{Out, Source};
use job_results::Resolution;
use text_chars::{DocAt, RecAt, Refusal, TextAt};

// The root is the first item.
const ROOT: usize = 0;

// The stack of layers is free from its first entry on.
const STACK_FREE: usize = 0;

// The value of the document's root, into the room. The stack is free from base on.
fn root_value(table: &[u16], bytes: &[u8], work: &mut [u16], base: usize, room: &mut [u8]) -> Worked
    requires { RootAsked bytes.now work.old base room.old }
    ensures { RootIs table.now bytes.now base work.old work.new result room.old
        room.new }
{
    let answers = Source {
        rec: RecAt(doc_items::TRAIL),
        text: TextAt(doc_items::SHEET),
    };
    let start = Out {
        rec: RecAt(0),
        text: TextAt(0),
    };
    node_value(table, bytes, work, room, answers, base, ROOT, start, LEVELS)
}

/// Whether the table is the root's value; the trail's texts take so much of the text part.
pub fn check_root(
    numbers: &[u16],
    bytes: &[u8],
    work: &mut [u16],
    room: &mut [u8],
    texts: TextAt,
    table: &[u8],
    text: &[u8],
) -> bool
    requires { CheckRootAsked bytes.now work.old room.old texts.0 text.now }
    ensures { CheckRootIs numbers.now bytes.now texts.0 table.now text.now result }
{
    match root_value(numbers, bytes, work, STACK_FREE, room) {
        Worked::Done(e) => {
            let o = e.out;
            let deep = e.deep;
            check_table(room, o, deep, texts, table, text)
        }
        Worked::Undefined => false,
        Worked::Needs(b) => false,
    }
}

// No settled root comes here: its value is defined, and no answer that it needs is missing.
fn no_value() -> Result<Resolution, Refusal> {
    Err(Refusal {
        number: refusals::UNDEFINED,
        place: DocAt(0),
    })
}

/// Hands back the root's value, behind the trail that was laid.
pub fn hand_root(
    numbers: &[u16],
    bytes: &[u8],
    work: &mut [u16],
    room: &mut [u8],
    at: Progress,
    table: &mut [u8],
    text: &mut [u8],
) -> Result<Resolution, Refusal>
    requires { HandRootAsked bytes.now work.old room.old at }
    ensures { HandRootIs numbers.now bytes.now at table.old table.new
        text.old text.new result }
{
    match root_value(numbers, bytes, work, STACK_FREE, room) {
        Worked::Done(e) => hand_back(room, e, at, table, text),
        Worked::Undefined => no_value(),
        Worked::Needs(b) => no_value(),
    }
}

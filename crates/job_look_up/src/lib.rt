// Look-up: the value of a lent table that a path text names, as a part of that table.
// Computes: Jobs (look_up_job)
#![tactic(auto)]

ghost use Rattle.std.specs.Prelude.{◌≡◌, ◌≤◌, length};
ghost use Rattle.rules.specs.Sizes.{max_room, max_path_text};
ghost use Rattle.rules.specs.Paths.{path_text};
ghost use Rattle.rules.specs.Jobs.{looked_up, look_up_job};
ghost use Rattle.sheet_paths.specs.Answers.{job_of, part_of};

use codes::{limits, refusals};
use sheet_paths::Part;
use text_chars::{DocAt, Refusal, TextLen};

// What the path of a path text names. It is read into buffers of this function's own.
fn look_up_path(table: &[u8], text: &[u8], path: &[u8]) -> Result<Part, Refusal>
    requires { (length table.now ≤ max_room) × (length text.now ≤ max_room) × (length path.now ≤ max_path_text) }
    ensures { job_of result ≡ looked_up table.now text.now (path_text path.now) }
{
    let mut names = [0u8; limits::PATH_TEXT];
    let mut marks = [0usize; limits::MARKS];
    let count = text_paths::path_text(path, &mut names, &mut marks)?;
    sheet_paths::part_named(table, text, &names, &marks, count)
}

/// Looks a path up in a table: what the rules of the job give, for any bytes.
pub fn look_up_answer(table: &[u8], text: &[u8], path: &[u8]) -> Result<Part, Refusal>
    ensures { job_of result ≡ look_up_job table.now text.now path.now }
{
    if limits::ROOM < table.len() {
        return Err(Refusal {
            number: refusals::BAD_INPUT,
            place: DocAt(0),
        });
    }
    if limits::ROOM < text.len() {
        return Err(Refusal {
            number: refusals::BAD_INPUT,
            place: DocAt(0),
        });
    }
    if limits::PATH_TEXT < path.len() {
        return Err(Refusal {
            number: refusals::BAD_INPUT,
            place: DocAt(0),
        });
    }
    if sheet_records::is_whole(table, TextLen(text.len())) {
        match text_chars::ill_formed(path) {
            Some(place) => Err(Refusal {
                number: refusals::ILL_FORMED_UTF8,
                place,
            }),
            None => look_up_path(table, text, path),
        }
    } else {
        Err(Refusal {
            number: refusals::NOT_A_TABLE,
            place: DocAt(0),
        })
    }
}

/// The part of the caller's own table that a path names; an empty part on a refusal.
pub fn look_up<'a>(table: &'a [u8], text: &[u8], path: &[u8]) -> &'a [u8]
    ensures { result.now ≡ part_of table.now (look_up_job table.now text.now path.now) }
{
    match look_up_answer(table, text, path) {
        Ok(part) => {
            let a = part.start.0;
            let e = a + part.size.0;
            &table[a..e]
        }
        Err(_) => &table[0..0],
    }
}

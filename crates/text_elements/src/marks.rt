// The marks of a path: of each of its first elements, one more than a path may have, the end of its text and the place of its first byte.
// They stand in one lent array of plain numbers, and only here: everywhere else an end is a `TextAt` and a place a `DocAt`.
// Computes: Paths
ghost use Rattle.std.specs.Prelude.{◌≡◌, ◌+◌, ◌*◌, ◌≤◌, ◌<◌, length};
ghost use Rattle.rules.specs.Sizes.{max_path};
ghost use Rattle.text_elements.specs.Marks.Marks.{marks_room, mark_c, end_of, place_of};
ghost use Rattle.text_elements.specs.Marks.Judging.{JudgeIs};

use codes::{limits, refusals};
use text_chars::{DocAt, Refusal, TextAt};

/// Marks an element by its end and its place; past the elements that are marked, nothing.
pub fn put_mark(marks: &mut [usize], n: usize, end: TextAt, place: DocAt)
    requires { marks_room ≤ length marks.old }
    ensures { marks.new ≡ mark_c n end.0 place.0 marks.old }
{
    if n < limits::MARKED {
        marks[2 * n] = end.0;
        marks[2 * n + 1] = place.0;
    }
}

/// The end of an element's text.
pub fn end_at(marks: &[usize], n: usize) -> TextAt
    requires { 2 * n + 1 < length marks.now }
    ensures { result.0 ≡ end_of marks.now n }
{
    TextAt(marks[2 * n])
}

/// The place of an element's first byte.
pub fn place_at(marks: &[usize], n: usize) -> DocAt
    requires { 2 * n + 1 < length marks.now }
    ensures { result.0 ≡ place_of marks.now n }
{
    DocAt(marks[2 * n + 1])
}

/// Judges a path at its end. It is fine if it has elements, none of them empty without quotes, and no more than it may have; else 7, at a given place, if it is empty or has an empty element without quotes; then 8, at the first element
/// that is too many.
pub fn judge_elements(
    count: usize,
    empty: bool,
    seven: DocAt,
    allowed: usize,
    marks: &[usize],
) -> Result<(), Refusal>
    requires { (allowed ≤ max_path) × (marks_room ≤ length marks.now) }
    ensures { JudgeIs count empty seven.0 allowed marks.now result }
{
    if count == 0 {
        return Err(Refusal {
            number: refusals::BAD_PATH,
            place: seven,
        });
    }
    if empty {
        return Err(Refusal {
            number: refusals::BAD_PATH,
            place: seven,
        });
    }
    if allowed < count {
        return Err(Refusal {
            number: refusals::OVER_LIMIT,
            place: place_at(marks, allowed),
        });
    }
    Ok(())
}

/// Judges a path that may have as many elements as any.
pub fn judge_path(count: usize, empty: bool, seven: DocAt, marks: &[usize]) -> Result<(), Refusal>
    requires { marks_room ≤ length marks.now }
    ensures { JudgeIs count empty seven.0 max_path marks.now result }
{
    judge_elements(count, empty, seven, limits::PATH, marks)
}

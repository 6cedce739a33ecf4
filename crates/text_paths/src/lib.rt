// Paths whole: the elements of a key, a substitution or a path text, and a look-up's path text.
// Computes: Paths
#![tactic(auto)]

ghost use Rattle.std.specs.Prelude.{◌≡◌, ◌≤◌, length, ◌&&◌, eqb};
ghost use Rattle.rules.specs.Bytes.{byte_at};
ghost use Rattle.rules.specs.Sizes.{max_document};
ghost use Rattle.text_elements.specs.Marks.Marks.{marks_room};
ghost use Rattle.text_paths.specs.Whole.{StopIs, SpaceIs, ClosedIs, ElementsAsked, ElementsIs};
ghost use Rattle.text_paths.specs.Texts.{EndedIs, PathAsked, PathIs};

use codes::{bytes, refusals};
use text_chars::{Cursor, DocAt, Refusal, TextAt};
use text_elements::Path;

// ---- all pieces

// What stands at a place of a path.
#[derive(Clone, Copy)]
enum Stop {
    // in a key a `$`, which is refused at once
    Dollar,
    // no further piece
    End,
    // a further piece begins
    Piece,
}

fn is_dollar(s: &[u8], c: Cursor, key: bool) -> bool
    ensures { result ≡ (key && eqb (byte_at s.now c.at.0) 36) }
{
    if key {
        text_chars::byte_at(s, c.at) == bytes::DOLLAR
    } else {
        false
    }
}

fn stop_at(s: &[u8], c: Cursor, key: bool) -> Stop
    requires { (length s.now ≤ max_document) × (c.at.0 ≤ length s.now) }
    ensures { StopIs key s.now c.at.0 result }
{
    if is_dollar(s, c, key) {
        return Stop::Dollar;
    }
    if text_unquoted::starts_simple(s, c) {
        Stop::Piece
    } else {
        Stop::End
    }
}

/// The elements of a path up to the first byte that starts no further piece.
#[derive(Clone, Copy)]
pub struct Joined {
    /// how many there are
    pub count: usize,
    /// whether one is empty and without quotes
    pub empty: bool,
    /// the cursor at that byte
    pub next: Cursor,
}

// The cursor past the whitespace behind a piece. It asks nothing of the cursor: one past the end, which no piece gives, stays.
fn past_space(s: &[u8], c: Cursor) -> Cursor
    requires { length s.now ≤ max_document }
    ensures { SpaceIs s.now c.at.0 result }
{
    if c.at.0 <= s.len() {
        text_scan::after_inline(s, c)
    } else {
        c
    }
}

// The last element is whole; without a piece there is none.
fn close_path(p: Path, any: bool, next: Cursor, marks: &mut [usize]) -> Joined
    requires { (marks_room ≤ length marks.old) × (p.count ≤ max_document) }
    ensures { ClosedIs p any next marks.old marks.new result }
{
    if any {
        let q = text_elements::segments::close_element(p, DocAt(0), marks);
        return Joined {
            count: q.count,
            empty: q.empty,
            next,
        };
    }
    Joined {
        count: 0,
        empty: false,
        next,
    }
}

/// Reads the pieces of a path from a place on and splits them at the dots outside quotes. A key refuses a `$` at once; all else that
/// differs between a key, a substitution's path and a path text is the caller's.
pub fn elements(
    s: &[u8],
    c: Cursor,
    key: bool,
    out: &mut [u8],
    marks: &mut [usize],
) -> Result<Joined, Refusal>
    requires { ElementsAsked s.now c.at.0 out.old marks.old }
    ensures { ElementsIs key s.now c.at.0 out.old marks.old
        out.new marks.new result }
{
    let mut p = Path {
        count: 0,
        used: TextAt(0),
        from: TextAt(0),
        place: c.at,
        quotes: false,
        empty: false,
    };
    let mut at = c;
    let mut from = c.at;
    let mut any = false;
    loop {
        match stop_at(s, at, key) {
            Stop::Dollar => {
                return Err(Refusal {
                    number: refusals::BAD_PATH,
                    place: at.at,
                });
            }
            Stop::End => {
                return Ok(close_path(p, any, at, marks));
            }
            Stop::Piece => {
                let more = text_elements::segments::advance(s, at, from, p, out, marks)?;
                p = more.path;
                from = more.next.at;
                at = past_space(s, more.next);
                any = true;
            }
        }
    }
}

// ---- path texts

// A path text is judged at its end; how many elements it has.
fn judge_path_text(
    s: &[u8],
    count: usize,
    empty: bool,
    next: Cursor,
    marks: &[usize],
) -> Result<usize, Refusal>
    requires { marks_room ≤ length marks.now }
    ensures { EndedIs s.now count empty next.at.0 marks.now result }
{
    if next.at.0 < s.len() {
        return Err(Refusal {
            number: refusals::BYTE_NOT_ALLOWED,
            place: next.at,
        });
    }
    text_elements::marks::judge_path(count, empty, DocAt(0), marks)?;
    Ok(count)
}

/// Reads a look-up's path text; how many elements it has. The elements' texts stand one behind the other in `out`; `marks` has the end and the place of each.
pub fn path_text(s: &[u8], out: &mut [u8], marks: &mut [usize]) -> Result<usize, Refusal>
    requires { PathAsked s.now out.old marks.old }
    ensures { PathIs s.now out.new marks.new result }
{
    let start = text_scan::after_inline(s, Cursor::start());
    let whole = elements(s, start, false, out, marks)?;
    judge_path_text(s, whole.count, whole.empty, whole.next, marks)
}

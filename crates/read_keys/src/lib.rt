// Keys: the path of a key, judged by what it may have, and the place of its value.
// Computes: Paths, Reading (`field_at` up to the value)
#![tactic(auto)]

ghost use Rattle.read_keys.specs.Keys.{JudgeKeyAsked, JudgeKeyIs, PathAsked, PathIs, KeyAsked, KeyIs};

use codes::refusals;
use text_chars::{Cursor, DocAt, Refusal};

/// A key that was read and what parts it from its value: how many elements it has, and the cursor where its value stands. The elements'
/// texts stand at the start of the buffer one behind the other, and the marks have the end and the place of each.
#[derive(Clone, Copy)]
pub struct KeyRead {
    pub count: usize,
    pub next: Cursor,
}

// A key's elements are judged before what parts them from the value.
fn judge_key(
    s: &[u8],
    end: Cursor,
    first: DocAt,
    count: usize,
    empty: bool,
    allowed: usize,
    marks: &[usize],
) -> Result<KeyRead, Refusal>
    requires { JudgeKeyAsked s.now end.at.0 allowed marks.now }
    ensures { JudgeKeyIs s.now end.at.0 count empty first.0 allowed marks.now result }
{
    text_elements::marks::judge_elements(count, empty, first, allowed, marks)?;
    let next = read_grammar::value_place(s, end)?;
    Ok(KeyRead { count, next })
}

// A key that does not start with `include`.
fn key_path(
    s: &[u8],
    c: Cursor,
    allowed: usize,
    text: &mut [u8],
    marks: &mut [usize],
) -> Result<KeyRead, Refusal>
    requires { PathAsked s.now c.at.0 allowed text.old marks.old }
    ensures { PathIs s.now c.at.0 allowed text.old marks.old
        text.new marks.new result }
{
    let path = text_paths::elements(s, c, true, text, marks)?;
    if path.count == 0 {
        return Err(Refusal {
            number: refusals::BYTE_NOT_ALLOWED,
            place: path.next.at,
        });
    }
    judge_key(s, path.next, c.at, path.count, path.empty, allowed, marks)
}

/// The key at a place where a field stands, up to the place of its value. `left` is how many nestings more may be opened inside the
/// container, `items` how many items there are so far.
pub fn key(
    s: &[u8],
    c: Cursor,
    left: usize,
    items: usize,
    text: &mut [u8],
    marks: &mut [usize],
) -> Result<KeyRead, Refusal>
    requires { KeyAsked s.now c.at.0 left items text.old marks.old }
    ensures { KeyIs s.now left c.at.0 items text.old marks.old
        text.new marks.new result }
{
    if read_grammar::starts_include(s, c) {
        return Err(Refusal {
            number: refusals::INCLUDE,
            place: c.at,
        });
    }
    let allowed = read_grammar::limits::allowed_keys(left, items);
    key_path(s, c, allowed, text, marks)
}

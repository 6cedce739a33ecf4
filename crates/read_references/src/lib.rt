// Substitutions as pieces of a value: whether each is optional, and its path, whose texts and ends stand in a buffer that the caller
// lends.
// Computes: Paths (`substitution_at`)
#![tactic(auto)]

ghost use Rattle.text_paths.specs.Whole.{ElementsAsked};
ghost use Rattle.read_references.specs.References.{OpenedAsked, OpenedIs, BraceAsked, BraceIs, BetweenIs};
ghost use Rattle.read_references.specs.References.{EndsAsked, EndsIs, ReferenceAsked, ReferenceIs};
ghost use Rattle.read_references.specs.ReferencePieces.{ReferencePieceAsked, ReferencePieceIs};

use codes::{bytes, limits};
use read_values::pieces::PieceItem;
use text_chars::{Cursor, DocAt, Refusal, TextAt, TextLen};

// A substitution that was read: whether it is optional, how many elements its path has, the size of their texts, and the cursor past it.
// The texts stand at the start of the buffer one behind the other, and behind them the end of each in two bytes.
#[derive(Clone, Copy)]
struct ReferenceRead {
    optional: bool,
    count: usize,
    size: TextLen,
    next: Cursor,
}

// The first bytes of a substitution: whether it is optional, and the cursor where its path begins.
#[derive(Clone, Copy)]
struct Opened {
    optional: bool,
    next: Cursor,
}

fn after_brace(s: &[u8], c: Cursor) -> Opened
    requires { OpenedAsked s.now c.at.0 }
    ensures { OpenedIs s.now c.at.0 result }
{
    let dollar = text_scan::look(s, c);
    let second = dollar.next;
    let brace = text_scan::look(s, second);
    let third = brace.next;
    let here = text_scan::look(s, third);
    let ch = here.ch;
    if ch == bytes::QUESTION {
        return Opened {
            optional: true,
            next: text_scan::after_inline(s, here.next),
        };
    }
    Opened {
        optional: false,
        next: text_scan::after_inline(s, third),
    }
}

// Past the last byte of a substitution; refused is its path, or that no `}` stands here.
fn close_reference(
    s: &[u8],
    end: Cursor,
    count: usize,
    empty: bool,
    dollar: DocAt,
    marks: &[usize],
) -> Result<Cursor, Refusal>
    requires { BraceAsked s.now end.at.0 marks.now }
    ensures { BraceIs s.now end.at.0 count empty dollar.0 marks.now result }
{
    let here = text_scan::look(s, end);
    if here.ch == bytes::CLOSE_BRACE {
        text_elements::marks::judge_path(count, empty, dollar, marks)?;
        return Ok(here.next);
    }
    Err(Refusal {
        number: read_grammar::not_allowed(s, end),
        place: end.at,
    })
}

// A substitution's path up to its `}`: how many elements it has, and the cursor past the `}`.
#[derive(Clone, Copy)]
struct Between {
    count: usize,
    next: Cursor,
}

fn path_between(
    s: &[u8],
    start: Cursor,
    dollar: DocAt,
    text: &mut [u8],
    marks: &mut [usize],
) -> Result<Between, Refusal>
    requires { ElementsAsked s.now start.at.0 text.old marks.old }
    ensures { BetweenIs s.now start.at.0 dollar.0 text.old text.new marks.new result }
{
    let path = text_paths::elements(s, start, false, text, marks)?;
    let next = close_reference(s, path.next, path.count, path.empty, dollar, marks)?;
    Ok(Between {
        count: path.count,
        next,
    })
}

// Writes the ends of a path's elements behind their texts; the answer is the size of the texts.
fn write_ends(marks: &[usize], count: usize, text: &mut [u8]) -> TextLen
    requires { EndsAsked marks.now count text.old }
    ensures { EndsIs marks.now count text.old text.new result }
{
    let last = count - 1;
    let whole = text_elements::marks::end_at(marks, last);
    let size = whole.0;
    for i in 0..count {
        let end = text_elements::marks::end_at(marks, i);
        let k = size + 2 * i;
        text[k] = (end.0 / 256) as u8;
        text[k + 1] = (end.0 % 256) as u8;
    }
    TextLen(size)
}

// The substitution at a `${`.
fn reference(s: &[u8], c: Cursor, text: &mut [u8]) -> Result<ReferenceRead, Refusal>
    requires { ReferenceAsked s.now c.at.0 text.old }
    ensures { ReferenceIs s.now c.at.0 text.old text.new result }
{
    let mut marks = [0usize; limits::MARKS];
    let o = after_brace(s, c);
    let start = o.next;
    let dollar = c.at;
    let path = path_between(s, start, dollar, text, &mut marks)?;
    Ok(ReferenceRead {
        optional: o.optional,
        count: path.count,
        size: write_ends(&marks, path.count, text),
        next: path.next,
    })
}

/// The substitution at a `${` as a piece, its path at the start of the text part.
pub fn reference_piece(
    s: &[u8],
    c: Cursor,
    w: TextAt,
    items: usize,
    text: &mut [u8],
) -> Result<Option<PieceItem>, Refusal>
    requires { ReferencePieceAsked s.now c.at.0 items text.old }
    ensures { ReferencePieceIs s.now c.at.0 w.0 items text.old text.new result }
{
    let read = reference(s, c, text)?;
    Ok(Some(PieceItem {
        next: read.next,
        items: items + 1,
        kind: read_values::pieces::reference_kind(read.optional),
        text: w,
        size: read.size,
        number: read.count,
    }))
}

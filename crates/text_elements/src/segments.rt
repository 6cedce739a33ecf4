// A path piece by piece: the text of a simple piece is split at the dots outside quotes, and joined to the elements so far.
// Computes: Paths
ghost use Rattle.std.specs.Prelude.{◌<◌, ◌≤◌, length};
ghost use Rattle.rules.specs.Sizes.{max_document};
ghost use Rattle.text_elements.specs.Marks.Marks.{marks_room};
ghost use Rattle.text_elements.specs.Segments.Model.{FinishIs, ByteIs, SplitAsked, SplitIs};
ghost use Rattle.text_elements.specs.Segments.Joining.{WrittenIs, SegmentAsked, SegmentIs, AdvanceAsked, AdvanceIs};

use crate::Path;
use text_chars::{Cursor, DocAt, Refusal, TextAt};
use text_pieces::Piece;

/// The element that is being read is whole and marked, and the next begins at a place.
pub fn close_element(p: Path, next: DocAt, marks: &mut [usize]) -> Path
    requires { (marks_room ≤ length marks.old) × (p.count ≤ max_document) }
    ensures { FinishIs p next.0 marks.old marks.new result }
{
    crate::marks::put_mark(marks, p.count, p.used, p.place);
    p.next_element(next)
}

// A byte outside quotes at a place: a dot ends the element, any other byte is its text.
fn add_byte(p: Path, b: u8, at: DocAt, out: &mut [u8], marks: &mut [usize]) -> Path
    requires { (marks_room ≤ length marks.old) × (p.count < max_document) × (p.used.0 < length out.old) × (at.0 < max_document) }
    ensures { ByteIs p b at.0 out.old marks.old out.new marks.new result }
{
    if crate::ends_element(b) {
        return close_element(p, crate::behind_dot(at), marks);
    }
    out[p.used.0] = b;
    Path {
        used: TextAt(p.used.0 + 1),
        ..p
    }
}

// The bytes of unquoted text, from a place up to another.
fn split(s: &[u8], from: DocAt, to: DocAt, p: Path, out: &mut [u8], marks: &mut [usize]) -> Path
    requires { SplitAsked s.now from.0 to.0 p out.old marks.old }
    ensures { SplitIs s.now from.0 to.0 p out.old marks.old
        out.new marks.new result }
{
    let mut q = p;
    for i in from.0..to.0 {
        q = add_byte(q, s[i], DocAt(i), out, marks);
    }
    q
}

// ---- one piece more

/// A path with one piece more, and the cursor past that.
#[derive(Clone, Copy)]
pub struct Segment {
    pub path: Path,
    pub next: Cursor,
}

// A piece that is no quoted one: its bytes as written.
fn add_written(
    s: &[u8],
    c: Cursor,
    next: Cursor,
    p: Path,
    out: &mut [u8],
    marks: &mut [usize],
) -> Segment
    requires { SplitAsked s.now c.at.0 next.at.0 p out.old marks.old }
    ensures { WrittenIs s.now c.at.0 next p out.old marks.old
        out.new marks.new result }
{
    Segment {
        path: split(s, c.at, next.at, p, out, marks),
        next,
    }
}

// The piece at a place where one begins.
fn next_segment(
    s: &[u8],
    c: Cursor,
    p: Path,
    out: &mut [u8],
    marks: &mut [usize],
) -> Result<Segment, Refusal>
    requires { SegmentAsked s.now c.at.0 p out.old marks.old }
    ensures { SegmentIs s.now c.at.0 p out.old marks.old
        out.new marks.new result }
{
    match text_pieces::piece_at(s, c, &mut out[p.used.0..])? {
        Piece::Quoted { next, used } => Ok(Segment {
            path: p.add_quoted(used),
            next,
        }),
        Piece::Unquoted { next } => Ok(add_written(s, c, next, p, out, marks)),
        Piece::Plain { kind: _, next } => Ok(add_written(s, c, next, p, out, marks)),
    }
}

/// One piece more, with the whitespace before it.
pub fn advance(
    s: &[u8],
    c: Cursor,
    from: DocAt,
    p: Path,
    out: &mut [u8],
    marks: &mut [usize],
) -> Result<Segment, Refusal>
    requires { AdvanceAsked s.now from.0 c.at.0 p out.old marks.old }
    ensures { AdvanceIs s.now from.0 c.at.0 p out.old marks.old
        out.new marks.new result }
{
    let q = split(s, from, c.at, p, out, marks);
    next_segment(s, c, q, out, marks)
}

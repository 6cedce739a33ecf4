// One record of a finished value, read from a job's bytes and written into a value's room. Any bytes may stand there; what they come to is
// counted, and never runs away.
// Computes: Sheet
ghost use Rattle.std.specs.Prelude.{◌+◌, ◌≤◌, length};
ghost use Rattle.eval_writer.specs.Clauses.{Room};
ghost use Rattle.eval_writer.specs.Copies.Model.{copy_k, plain_c, word_c};
ghost use Rattle.eval_writer.specs.Copies.Contracts.{most_bytes, Span, CopiedIs, HeadIs};

use eval_writer::copies::Copied;
use eval_writer::{Out, put_head, put_key, put_plain, put_string};
use sheet_forms::{WORD, count_members, pair_at};
use text_chars::{RecAt, TextAt, TextLen};

/// The key of a member, where it has one.
pub fn copy_key(room: &mut [u8], table: &[u16], bytes: &[u8], keyed: bool, c: Copied) -> Copied
    requires { Room room.old × Span bytes.now c.next.0 c.out × (c.next.0 ≤ length bytes.now) }
    ensures { CopiedIs bytes.now 5 (copy_k table.now bytes.now keyed c.next.0) c.out result
        room.old room.new }
{
    if keyed {
        let k = pair_at(bytes, RecAt(c.next.0 + 1));
        return Copied {
            next: RecAt(c.next.0 + WORD),
            out: put_key(room, table, bytes, k, c.out),
            deep: 0,
        };
    }
    Copied { deep: 0, ..c }
}

/// A value of one byte.
pub fn copy_plain(room: &mut [u8], bytes: &[u8], kind: u8, at: RecAt, o: Out) -> Copied
    requires { Room room.old × Span bytes.now at.0 o × (at.0 ≤ length bytes.now + 5) }
    ensures { CopiedIs bytes.now 10 (plain_c kind at.0) o result room.old room.new }
{
    Copied {
        next: RecAt(at.0 + 1),
        out: put_plain(room, kind, o),
        deep: 0,
    }
}

/// A number or string; its text is counted from `texts` on.
pub fn copy_word(
    room: &mut [u8],
    bytes: &[u8],
    texts: TextAt,
    kind: u8,
    at: RecAt,
    o: Out,
) -> Copied
    requires { Room room.old × Span bytes.now at.0 o × (at.0 ≤ length bytes.now + 5) × (texts.0 ≤ most_bytes) }
    ensures { CopiedIs bytes.now 10 (word_c bytes.now texts.0 kind at.0 o.text.0) o result
        room.old room.new }
{
    let from = pair_at(bytes, RecAt(at.0 + 1));
    let n = pair_at(bytes, RecAt(at.0 + 3));
    Copied {
        next: RecAt(at.0 + WORD),
        out: put_string(room, bytes, kind, TextAt(texts.0 + from), TextLen(n), o),
        deep: 0,
    }
}

/// The record of an array or object, and how many members it has.
pub fn copy_head(room: &mut [u8], bytes: &[u8], kind: u8, at: RecAt, o: Out) -> usize
    requires { Room room.old × Span bytes.now at.0 o × (at.0 ≤ length bytes.now + 5) }
    ensures { HeadIs bytes.now kind at.0 o.rec.0 result room.old room.new }
{
    let inside = pair_at(bytes, RecAt(at.0 + 1));
    put_head(room, o.rec, kind, inside);
    count_members(bytes, at)
}

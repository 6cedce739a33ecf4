// A finished value copied into a value's room with all that is inside it: its records as kept, its texts from where the room has come to.
// Computes: Sheet
#![tactic(auto)]

pub mod records;
pub mod runs;

ghost use Rattle.std.specs.Prelude.{◌≡◌, ◌+◌, ◌≤◌, length};
ghost use Rattle.eval_writer.specs.Clauses.{Room};
ghost use Rattle.eval_writer.specs.Copies.Contracts.{most_bytes, Span};
ghost use Rattle.eval_copy.specs.Clauses.{most_levels, DeeperIs, ValueIs, HeldIs, MembersIs, MemberIs};

use crate::records::{copy_head, copy_key, copy_plain, copy_word};
use crate::runs::copy_run;
use codes::kinds;
use eval_writer::Out;
use eval_writer::copies::Copied;
use sheet_forms::{HEAD, Shape, kind_at, shape_of};
use text_chars::{RecAt, TextAt};

// ---- depth

// An array or object is one deeper than its deepest member.
fn one_deeper(m: Copied) -> Copied
    requires { m.deep ≤ most_levels }
    ensures { DeeperIs m result }
{
    Copied {
        deep: m.deep + 1,
        ..m
    }
}

// ---- a value with all that is inside it

/// Copies the value at a place, so many levels deep.
#[cycle(copy_held_copy_member_copy_members_copy_value)]
pub fn copy_value(
    room: &mut [u8],
    table: &[u16],
    bytes: &[u8],
    texts: TextAt,
    at: RecAt,
    o: Out,
    levels: usize,
) -> Copied
    requires { Room room.old × Span bytes.now at.0 o × (at.0 ≤ length bytes.now + 5) × (texts.0 ≤ most_bytes)
        × (levels ≤ most_levels) }
    ensures { ValueIs levels table.now bytes.now texts.0 at.0 o result
        room.old room.new }
{
    let kind = kind_at(bytes, at);
    match shape_of(kind) {
        Shape::Plain => copy_plain(room, bytes, kind, at, o),
        // no value: a key stands only in its object
        Shape::Key => copy_plain(room, bytes, kind, at, o),
        Shape::Word => copy_word(room, bytes, texts, kind, at, o),
        Shape::Head => copy_held(room, table, bytes, texts, kind, at, o, levels),
    }
}

// An array or object.
#[cycle(copy_held_copy_member_copy_members_copy_value)]
fn copy_held(
    room: &mut [u8],
    table: &[u16],
    bytes: &[u8],
    texts: TextAt,
    kind: u8,
    at: RecAt,
    o: Out,
    levels: usize,
) -> Copied
    requires { Room room.old × Span bytes.now at.0 o × (at.0 ≤ length bytes.now + 5) × (texts.0 ≤ most_bytes)
        × (levels ≤ most_levels) }
    ensures { HeldIs levels table.now bytes.now texts.0 kind at.0 o result
        room.old room.new }
{
    if levels == 0 {
        return Copied {
            next: RecAt(at.0 + 1),
            out: o,
            deep: 0,
        };
    }
    let count = copy_head(room, bytes, kind, at, o);
    let c = Copied {
        next: RecAt(at.0 + HEAD),
        out: Out {
            rec: RecAt(o.rec.0 + HEAD),
            ..o
        },
        deep: 0,
    };
    let m = copy_members(
        room,
        table,
        bytes,
        texts,
        kind == kinds::OBJECT,
        count,
        c,
        levels - 1,
    );
    one_deeper(m)
}

/// So many members, one behind the other; elements of one byte each in runs. Each takes a byte at least, so however many are promised, the bytes'
/// end is soon met.
#[cycle(copy_held_copy_member_copy_members_copy_value)]
pub fn copy_members(
    room: &mut [u8],
    table: &[u16],
    bytes: &[u8],
    texts: TextAt,
    keyed: bool,
    count: usize,
    c: Copied,
    levels: usize,
) -> Copied
    requires { Room room.old × Span bytes.now c.next.0 c.out × (c.next.0 ≤ length bytes.now + 10) × (c.deep ≡ 0)
        × (texts.0 ≤ most_bytes) × (levels ≤ most_levels) }
    ensures { MembersIs levels table.now bytes.now texts.0 keyed count c result
        room.old room.new }
{
    let mut d = c;
    let mut left = count;
    while 0 < left {
        if bytes.len() <= d.next.0 {
            return d;
        }
        let m = copy_member(room, table, bytes, texts, keyed, d, levels);
        left -= 1;
        d = copy_run(room, bytes, keyed, d.deep, m, left);
        left -= d.next.0 - m.next.0;
    }
    d
}

// A member: its key, if it has one, and its value.
#[cycle(copy_held_copy_member_copy_members_copy_value)]
fn copy_member(
    room: &mut [u8],
    table: &[u16],
    bytes: &[u8],
    texts: TextAt,
    keyed: bool,
    c: Copied,
    levels: usize,
) -> Copied
    requires { Room room.old × Span bytes.now c.next.0 c.out × (c.next.0 ≤ length bytes.now) × (texts.0 ≤ most_bytes)
        × (levels ≤ most_levels) }
    ensures { MemberIs levels table.now bytes.now texts.0 keyed c result
        room.old room.new }
{
    let k = copy_key(room, table, bytes, keyed, c);
    copy_value(room, table, bytes, texts, k.next, k.out, levels)
}

// The reader of documents: any bytes to a table of items and a text part, or to the refusal that the rules of reading name. Objects,
// arrays and values are read by functions that call each other; each is lent the part of the table and of the text part that is not used
// yet, and what stands before it stays.
//
// Computes: Reading (arrayAt, object_at, element_at, fieldAt, value_from, pieceAt).
#![tactic(auto)]

ghost use Rattle.std.specs.Prelude.{◌≡◌, true};
ghost use Rattle.read_grammar.specs.Decisions.{closes};
ghost use Rattle.read_cycle.specs.Clauses.{Asked, ArrayIs, ObjectIs, ElementIs, FieldIs, ValueIs};
ghost use Rattle.read_cycle.specs.Clauses.{FieldValueAsked, FieldValueIs, StepAsked, StepIs, PieceAsked, PieceIs};

use codes::{bytes, limits, refusals};
use doc_items::WIDTH;
use read_grammar::Turn;
use read_grammar::limits::Beginning;
use read_values::Run;
use read_values::pieces::{Listed, PieceItem, ValueStep, Valued};
use text_chars::{Cursor, DocAt, Refusal, TextAt};

// ---- the readers of array, object and value

/// The elements of an array behind its `[`, and that bracket's partner.
#[cycle(array_element_field_field_value_object_piece_step_value)]
pub fn array(
    s: &[u8],
    c: Cursor,
    left: usize,
    items: usize,
    table: &mut [u16],
    text: &mut [u8],
) -> Result<Listed, Refusal>
    requires { Asked s.now c.at.0 left items table.old text.old }
    ensures { ArrayIs s.now c.at.0 left items
        table.old text.old table.new text.new result }
{
    let start = c.at.0;
    let gap = text_scan::gap_at(s, c);
    let mut at = gap.next;
    let mut n = items;
    loop {
        match read_grammar::turn_at(s, at, bytes::CLOSE_BRACKET) {
            Turn::Close(next) => {
                return Ok(Listed { next, items: n });
            }
            Turn::End => {
                return Err(Refusal {
                    number: refusals::UNEXPECTED_END,
                    place: DocAt(s.len()),
                });
            }
            Turn::Member => {
                let u = WIDTH * (n - items);
                let v = 2 * (at.at.0 - start);
                let read = element(s, at, left, n, &mut table[u..], &mut text[v..])?;
                at = read.next;
                n = read.items;
            }
        }
    }
}

/// The fields of an object up to its closing byte, which is `NONE` for the end of the text.
#[cycle(array_element_field_field_value_object_piece_step_value)]
pub fn object(
    s: &[u8],
    c: Cursor,
    closing: u32,
    left: usize,
    items: usize,
    table: &mut [u16],
    text: &mut [u8],
) -> Result<Listed, Refusal>
    requires { (closes closing ≡ true) × Asked s.now c.at.0 left items table.old text.old }
    ensures { ObjectIs closing s.now c.at.0 left items
        table.old text.old table.new text.new result }
{
    let start = c.at.0;
    let gap = text_scan::gap_at(s, c);
    let mut at = gap.next;
    let mut n = items;
    loop {
        match read_grammar::turn_at(s, at, closing) {
            Turn::Close(next) => {
                return Ok(Listed { next, items: n });
            }
            Turn::End => {
                return Err(Refusal {
                    number: refusals::UNEXPECTED_END,
                    place: DocAt(s.len()),
                });
            }
            Turn::Member => {
                let u = WIDTH * (n - items);
                let v = 2 * (at.at.0 - start);
                let read = field(s, at, closing, left, n, &mut table[u..], &mut text[v..])?;
                at = read.next;
                n = read.items;
            }
        }
    }
}

// An element with what parts it from the next.
#[cycle(array_element_field_field_value_object_piece_step_value)]
fn element(
    s: &[u8],
    c: Cursor,
    left: usize,
    items: usize,
    table: &mut [u16],
    text: &mut [u8],
) -> Result<Listed, Refusal>
    requires { Asked s.now c.at.0 left items table.old text.old }
    ensures { ElementIs s.now c.at.0 left items
        table.old text.old table.new text.new result }
{
    let place = c.at;
    if items == doc_items::MAX_ITEMS {
        return Err(Refusal {
            number: read_grammar::limits::excess_number(s, c),
            place,
        });
    }
    let v = value(s, c, left, items + 1, &mut table[WIDTH..], text);
    read_steps::finish_element(s, place, items, v, table)
}

// A field with what parts it from the next: the items of its key's elements, one inside the other, and its value's.
#[cycle(array_element_field_field_value_object_piece_step_value)]
fn field(
    s: &[u8],
    c: Cursor,
    closing: u32,
    left: usize,
    items: usize,
    table: &mut [u16],
    text: &mut [u8],
) -> Result<Listed, Refusal>
    requires { Asked s.now c.at.0 left items table.old text.old }
    ensures { FieldIs closing s.now c.at.0 left items
        table.old text.old table.new text.new result }
{
    let mut marks = [0usize; limits::MARKS];
    let read = read_keys::key(s, c, left, items, text, &mut marks)?;
    field_value(
        s, read.next, c.at, closing, left, items, read.count, &marks, table, text,
    )
}

// The value of a field whose key was read, in front of which the items of the key's elements are written.
#[cycle(array_element_field_field_value_object_piece_step_value)]
fn field_value(
    s: &[u8],
    c: Cursor,
    place: DocAt,
    closing: u32,
    left: usize,
    items: usize,
    count: usize,
    marks: &[usize],
    table: &mut [u16],
    text: &mut [u8],
) -> Result<Listed, Refusal>
    requires { FieldValueAsked s.now c.at.0 place.0 left items count marks.now table.old text.old }
    ensures { FieldValueIs closing s.now c.at.0 place.0 left items count marks.now
        table.old text.old table.new text.new result }
{
    let u = WIDTH * count;
    let w = 2 * (c.at.0 - place.0);
    let v = value(
        s,
        c,
        left + 1 - count,
        items + count,
        &mut table[u..],
        &mut text[w..],
    );
    read_steps::finish_field(s, place, closing, items, count, marks, v, table)
}

// A value: its pieces, one behind the other, and what they come to.
#[cycle(array_element_field_field_value_object_piece_step_value)]
fn value(
    s: &[u8],
    c: Cursor,
    left: usize,
    items: usize,
    table: &mut [u16],
    text: &mut [u8],
) -> Result<Valued, Refusal>
    requires { Asked s.now c.at.0 left items table.old text.old }
    ensures { ValueIs s.now c.at.0 left items
        table.old text.old table.new text.new result }
{
    let begin = c.at;
    let start = 2 * begin.0;
    let mut at = c;
    let mut from = begin;
    let mut n = items;
    let mut used: usize = start;
    let mut run = Run {
        count: 0,
        kind: 0,
        subs: false,
        odd: false,
        place: begin,
    };
    loop {
        let u = WIDTH * (n - items);
        let v = used - start;
        let Some(more) = step(
            s,
            at,
            from,
            TextAt(used),
            run,
            left,
            n,
            &mut table[u..],
            &mut text[v..],
        )?
        else {
            return read_values::pieces::finish_value(s, at, run, n, TextAt(start), TextAt(used));
        };
        from = more.next.at;
        at = text_scan::after_inline(s, more.next);
        n = more.items;
        run = more.run;
        used = more.used.0;
    }
}

// One piece more of a value, with the whitespace before it. The text part begins behind what the value has used.
#[cycle(array_element_field_field_value_object_piece_step_value)]
fn step(
    s: &[u8],
    c: Cursor,
    from: DocAt,
    used: TextAt,
    run: Run,
    left: usize,
    items: usize,
    table: &mut [u16],
    text: &mut [u8],
) -> Result<Option<ValueStep>, Refusal>
    requires { StepAsked s.now c.at.0 from.0 used.0 run left items table.old text.old }
    ensures { StepIs s.now c.at.0 from.0 used.0 run left items
        table.old text.old table.new text.new result }
{
    let place = c.at;
    let gap = place.0 - from.0;
    let w = used.0 + gap;
    let r = piece(
        s,
        c,
        TextAt(w),
        left,
        items,
        &mut table[WIDTH..],
        &mut text[gap..],
    );
    read_steps::finish_piece(s, place, from, used, run, items, r, table, text)
}

// The piece at a place, if one begins there. The table begins behind the piece's item, the text part where its text may.
#[cycle(array_element_field_field_value_object_piece_step_value)]
fn piece(
    s: &[u8],
    c: Cursor,
    w: TextAt,
    left: usize,
    items: usize,
    table: &mut [u16],
    text: &mut [u8],
) -> Result<Option<PieceItem>, Refusal>
    requires { PieceAsked s.now c.at.0 w.0 left items table.old text.old }
    ensures { PieceIs s.now c.at.0 w.0 left items
        table.old text.old table.new text.new result }
{
    match read_grammar::limits::piece_start(s, c, left, items)? {
        Beginning::Nothing => Ok(None),
        Beginning::Scalar => read_steps::scalar_piece(s, c, w, items, text),
        Beginning::Reference => read_references::reference_piece(s, c, w, items, text),
        Beginning::Object(next) => {
            let v = 2 * next.at.0 - w.0;
            let r = object(
                s,
                next,
                bytes::CLOSE_BRACE,
                left - 1,
                items + 1,
                table,
                &mut text[v..],
            );
            read_values::pieces::container_piece(r, doc_items::OBJECT)
        }
        Beginning::Array(next) => {
            let v = 2 * next.at.0 - w.0;
            let r = array(s, next, left - 1, items + 1, table, &mut text[v..]);
            read_values::pieces::container_piece(r, doc_items::ARRAY)
        }
    }
}

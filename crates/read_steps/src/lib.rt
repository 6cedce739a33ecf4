// The steps of reading that call no other reader: one simple piece, the item of a piece, and the items of a field and of
// an element.
// Computes: Reading (`piece_at`, `field_at`, `element_at`, but for what they read by calling themselves)
#![tactic(auto)]

ghost use Rattle.read_steps.specs.Steps.{ScalarPieceAsked, ScalarPieceIs};
ghost use Rattle.read_steps.specs.Steps.{PutPieceAsked, PutPieceIs, FinishPieceAsked, FinishPieceIs};
ghost use Rattle.read_steps.specs.Steps.{FinishFieldAsked, FinishFieldIs, FinishElementAsked, FinishElementIs};

use codes::bytes;
use doc_items::Item;
use read_values::Run;
use read_values::pieces::{Listed, PieceItem, ValueStep, Valued};
use text_chars::{Cursor, DocAt, Refusal, TextAt, TextLen};

/// A simple piece, its text at the start of the text part.
pub fn scalar_piece(
    s: &[u8],
    c: Cursor,
    w: TextAt,
    items: usize,
    text: &mut [u8],
) -> Result<Option<PieceItem>, Refusal>
    requires { ScalarPieceAsked s.now c.at.0 items text.old }
    ensures { ScalarPieceIs s.now c.at.0 w.0 items text.old text.new result }
{
    let read = read_scalars::scalar(s, c, text)?;
    Ok(Some(PieceItem {
        next: read.next,
        items: items + 1,
        kind: read.kind as usize,
        text: w,
        size: read.size,
        number: 0,
    }))
}

// Writes the whitespace before a piece to the start of the text part, and the piece's item to the start of the table.
fn put_piece(
    s: &[u8],
    place: DocAt,
    from: DocAt,
    used: TextAt,
    items: usize,
    f: PieceItem,
    table: &mut [u16],
    text: &mut [u8],
)
    requires { PutPieceAsked s.now place.0 from.0 used.0 items f table.old text.old }
    ensures { PutPieceIs s.now place.0 from.0 used.0 items f table.old text.old
        table.new text.new }
{
    let gap = text_bytes::copy(s, from, place, text);
    let item = Item {
        kind: doc_items::PIECE + f.kind,
        size: f.items - items,
        key: used,
        keylen: TextLen(gap),
        text: f.text,
        textlen: f.size,
        place,
        number: f.number,
    };
    doc_items::put_item(table, 0, item);
}

/// What a piece makes of a value: its item and the whitespace before it are written, and the value has a piece more.
pub fn finish_piece(
    s: &[u8],
    place: DocAt,
    from: DocAt,
    used: TextAt,
    run: Run,
    items: usize,
    r: Result<Option<PieceItem>, Refusal>,
    table: &mut [u16],
    text: &mut [u8],
) -> Result<Option<ValueStep>, Refusal>
    requires { FinishPieceAsked s.now place.0 from.0 used.0 run items r table.old text.old }
    ensures { FinishPieceIs s.now place.0 from.0 used.0 run items r table.old text.old
        table.new text.new result }
{
    let Some(found) = r? else {
        return Ok(None);
    };
    put_piece(s, place, from, used, items, found, table, text);
    Ok(Some(read_values::pieces::add_piece(run, place, found)))
}

/// What a value makes of a field: the items of its key's elements are written in front of the value's, and what parts it from the next is
/// passed.
pub fn finish_field(
    s: &[u8],
    place: DocAt,
    closing: u32,
    items: usize,
    count: usize,
    marks: &[usize],
    v: Result<Valued, Refusal>,
    table: &mut [u16],
) -> Result<Listed, Refusal>
    requires { FinishFieldAsked s.now place.0 items count marks.now v table.old }
    ensures { FinishFieldIs s.now place.0 closing items count marks.now v table.old
        table.new result }
{
    let v = v?;
    read_values::fields::put_fields(
        table,
        marks,
        count,
        v.items - items,
        TextAt(2 * place.0),
        v.kind,
        v.text,
        v.size,
    );
    read_values::pieces::after_member(s, v.next, v.items, closing)
}

/// What a value makes of an element: its item is written in front of the value's, and what parts it from the next is passed.
pub fn finish_element(
    s: &[u8],
    place: DocAt,
    items: usize,
    v: Result<Valued, Refusal>,
    table: &mut [u16],
) -> Result<Listed, Refusal>
    requires { FinishElementAsked s.now place.0 items v table.old }
    ensures { FinishElementIs s.now place.0 items v table.old table.new result }
{
    let v = v?;
    let item = Item {
        kind: v.kind,
        size: v.items - items,
        key: TextAt(0),
        keylen: TextLen(0),
        text: v.text,
        textlen: v.size,
        place,
        number: 0,
    };
    doc_items::put_item(table, 0, item);
    read_values::pieces::after_member(s, v.next, v.items, bytes::CLOSE_BRACKET)
}

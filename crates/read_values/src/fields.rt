// The items of a field's key: one for each of its elements, each inside the one before, and the value's numbers in the last.
// Computes: Reading (`inside`)
ghost use Rattle.read_values.specs.Fields.Keys.{KeyAsked, KeyIs, PutAsked, PutIs};

use doc_items::{Item, OBJECT};
use text_chars::{TextAt, TextLen};

// The item of a key's element, whose text begins so far behind the first's.
fn put_key(
    table: &mut [u16],
    marks: &[usize],
    j: usize,
    from: TextAt,
    size: usize,
    base: TextAt,
    kind: usize,
    text: TextAt,
    textlen: TextLen,
)
    requires { KeyAsked marks.now table.old j from.0 size base.0 kind text.0 textlen.0 }
    ensures { KeyIs marks.now table.old table.new
        j from.0 size base.0 kind text.0 textlen.0 }
{
    let end = text_elements::marks::end_at(marks, j);
    let place = text_elements::marks::place_at(marks, j);
    let b = base.0;
    let f = from.0;
    let e = end.0;
    let item = Item {
        kind,
        size: size - j,
        key: TextAt(b + f),
        keylen: TextLen(e - f),
        text,
        textlen,
        place,
        number: 0,
    };
    doc_items::put_item(table, j, item);
}

/// Writes the items of a key's elements at the start of a table behind which the value's stand: the last with the numbers of the value.
pub fn put_fields(
    table: &mut [u16],
    marks: &[usize],
    count: usize,
    size: usize,
    base: TextAt,
    kind: usize,
    text: TextAt,
    textlen: TextLen,
)
    requires { PutAsked marks.now table.old count size base.0 kind text.0 textlen.0 }
    ensures { PutIs marks.now table.old table.new
        count size base.0 kind text.0 textlen.0 }
{
    let last = count - 1;
    let mut from = TextAt(0);
    for j in 0..last {
        put_key(
            table,
            marks,
            j,
            from,
            size,
            base,
            OBJECT,
            TextAt(0),
            TextLen(0),
        );
        from = text_elements::marks::end_at(marks, j);
    }
    put_key(table, marks, last, from, size, base, kind, text, textlen);
}

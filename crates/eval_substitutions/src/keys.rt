// The path of a substitution as key numbers.
// Computes: Layers (layers_at: the elements that are followed)
ghost use Rattle.std.specs.Prelude.{◌≤◌, ◌<◌, length};
ghost use Rattle.doc_items.specs.Room.{capacity};
ghost use Rattle.eval_substitutions.specs.Keys.Model.{near_ends};
ghost use Rattle.eval_substitutions.specs.Keys.Contracts.{path_capacity, BeginsIs, Close, RouteIs, SpanIs, PathKeyIs, PathKeysIs};

use codes::limits;
use doc_items::{COLUMN_NUMBER, COLUMN_TEXT, COLUMN_TEXTLEN, WIDTH, number_at};
use text_chars::{TextAt, TextLen};

/// Where the path of a substitution stands in the texts: its elements one behind the other, so many bytes, and behind them their ends, two
/// bytes each.
#[derive(Clone, Copy)]
pub struct Route {
    pub at: TextAt,
    pub len: TextLen,
    pub count: usize,
}

/// How many elements a path may have here: as many as it may be written with. Apart from that limit, since one path may be put behind another.
pub const PATH_CAPACITY: usize = limits::PATH;

// Texts that a table can name are shorter.
const LENGTHS: usize = 65536;

/// The path of an item that is a substitution; no more elements than there is room for, whatever the table has.
pub fn route_of(table: &[u16], item: usize) -> Route
    requires { item < capacity }
    ensures { RouteIs table.now item result }
{
    let at = number_at(table, WIDTH * item + COLUMN_TEXT);
    let len = number_at(table, WIDTH * item + COLUMN_TEXTLEN);
    let count = number_at(table, WIDTH * item + COLUMN_NUMBER);
    if count <= PATH_CAPACITY {
        return Route {
            at: TextAt(at),
            len: TextLen(len),
            count,
        };
    }
    Route {
        at: TextAt(at),
        len: TextLen(len),
        count: PATH_CAPACITY,
    }
}

// Where an element begins: where the one before it ends.
fn begins(texts: &[u8], ends: usize, i: usize) -> usize
    requires { (ends ≤ near_ends) × (i ≤ path_capacity) }
    ensures { BeginsIs texts.now ends i result }
{
    if i == 0 {
        return 0;
    }
    sheet_records::kinds::text_pair(texts, TextAt(ends + 2 * (i - 1)))
}

// How long the text between two places is; one that no table can name is none.
fn text_span(from: usize, to: usize) -> usize
    ensures { SpanIs from to result }
{
    if to < from {
        return 0;
    }
    let n = to - from;
    if n < LENGTHS { n } else { 0 }
}

// The number of a path's element: 0 if no field has it as its key.
fn path_key(table: &[u16], texts: &[u8], route: Route, i: usize) -> usize
    requires { Close route × (i < route.count) }
    ensures { PathKeyIs texts.now table.now route i result }
{
    let at = route.at;
    let len = route.len;
    let ends = at.0 + len.0;
    let from = begins(texts, ends, i);
    let to = sheet_records::kinds::text_pair(texts, TextAt(ends + 2 * i));
    eval_keys::find(
        table,
        texts,
        TextAt(at.0 + from),
        TextLen(text_span(from, to)),
    )
}

/// The numbers of all elements.
pub fn path_keys(table: &[u16], texts: &[u8], route: Route, keys: &mut [u16])
    requires { Close route × (route.count ≤ length keys.old) }
    ensures { PathKeysIs texts.now table.now route keys.old keys.new }
{
    for i in 0..route.count {
        let k = path_key(table, texts, route, i);
        keys[i] = k as u16;
    }
}

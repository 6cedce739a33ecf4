// The whole reading of a document: its bytes, its root with all items, then the numbers of its unresolved values; and of the inputs that a
// job is given.
// Whether the inputs of a job keep their bounds.
// Computes: Documents (read_tree, read_document, inputs), Reading (read_root)
#![tactic(auto)]

ghost use Rattle.std.specs.Prelude.{◌≤◌, length};
ghost use Rattle.doc_items.specs.Room.{table_room, text_room};
ghost use Rattle.rules.specs.Sizes.{max_items};
ghost use Rattle.read_documents.specs.Trees.{PutRootAsked, PutRootIs, ScratchAsked, RootIs, TreeIs};
ghost use Rattle.read_documents.specs.Clauses.{NumberTreeIs, DocumentAsked, DocumentIs, InputsIs};
ghost use Rattle.read_documents.specs.Bounds.{FitsIs};

use codes::{limits, refusals};
use doc_items::{Item, WIDTH};
use read_grammar::roots::Opening;
use read_values::pieces::Listed;
use text_chars::{DocAt, Refusal, TextAt, TextLen, ill_formed};

// ---- the tree

/// What is counted over all documents that a job reads.
#[derive(Clone, Copy)]
pub struct Counters {
    /// how many nestings may still be opened inside a root's
    pub left: usize,
    /// how many items there are
    pub items: usize,
}

// Behind the root stands only a gap. Then the root's item is written, with those that were read since the count of items.
fn put_root(
    s: &[u8],
    r: Result<Listed, Refusal>,
    kind: usize,
    items: usize,
    table: &mut [u16],
) -> Result<Listed, Refusal>
    requires { PutRootAsked s.now table.old kind items r }
    ensures { PutRootIs s.now kind items r table.old table.new result }
{
    let read = r?;
    let last = read_grammar::roots::ending_of(s, read.next)?;
    let item = Item {
        kind,
        size: read.items - items + 1,
        key: TextAt(0),
        keylen: TextLen(0),
        text: TextAt(0),
        textlen: TextLen(0),
        place: DocAt(0),
        number: 0,
    };
    doc_items::put_item(table, 0, item);
    Ok(Listed {
        next: last,
        items: read.items,
    })
}

// The root with all its items: an object, in braces or without, or an array.
fn root(
    s: &[u8],
    left: usize,
    items: usize,
    table: &mut [u16],
    text: &mut [u8],
) -> Result<Listed, Refusal>
    requires { ScratchAsked s.now 0 left items table.old text.old }
    ensures { RootIs s.now left items
        table.old text.old table.new text.new result }
{
    match read_grammar::roots::opening_of(s) {
        Opening::Object { next, closing } => {
            let v = 2 * next.at.0;
            let r = read_cycle::object(
                s,
                next,
                closing,
                left,
                items,
                &mut table[WIDTH..],
                &mut text[v..],
            );
            put_root(s, r, doc_items::OBJECT, items, table)
        }
        Opening::Array(next) => {
            let v = 2 * next.at.0;
            let r = read_cycle::array(s, next, left, items, &mut table[WIDTH..], &mut text[v..]);
            put_root(s, r, doc_items::ARRAY, items, table)
        }
    }
}

// The counters behind a document's tree, which the table and the text part hold: 2 over its bytes, then from left to right. The counters go in and come out: a second document may go on where
// a first one stopped, in the part of the table behind it.
fn read_tree(
    s: &[u8],
    counters: Counters,
    table: &mut [u16],
    text: &mut [u8],
) -> Result<Counters, Refusal>
    requires { ScratchAsked s.now 0 counters.left counters.items table.old text.old }
    ensures { TreeIs s.now counters
        table.old text.old table.new text.new result }
{
    match ill_formed(s) {
        Some(place) => Err(Refusal {
            number: refusals::ILL_FORMED_UTF8,
            place,
        }),
        None => {
            let read = root(s, counters.left, counters.items, table, text)?;
            Ok(Counters {
                items: read.items,
                ..counters
            })
        }
    }
}

// ---- the document

/// How many items and how many unresolved values a document has that was read. The table and the text part hold it.
#[derive(Clone, Copy)]
pub struct Reading {
    pub items: usize,
    pub unresolved: usize,
}

// The numbers of the unresolved values of a tree that was read.
fn number_tree(s: &[u8], items: usize, table: &mut [u16]) -> Result<Reading, Refusal>
    requires { (items ≤ max_items) × (table_room ≤ length table.old) }
    ensures { NumberTreeIs s.now items table.old table.new result }
{
    let unresolved = read_numbering::number_items(table, items + 1)?;
    Ok(Reading { items, unresolved })
}

// Reads a document that is not too long: its tree, from nesting 1 and without items, then the limit on unresolved values.
fn read_document(s: &[u8], table: &mut [u16], text: &mut [u8]) -> Result<Reading, Refusal>
    requires { DocumentAsked s.now table.old text.old }
    ensures { DocumentIs s.now
        table.old text.old table.new text.new result }
{
    let none = Counters {
        left: limits::NESTING_IN_ROOT,
        items: 0,
    };
    match read_tree(s, none, table, text) {
        Err(e) => Err(e),
        Ok(tree) => number_tree(s, tree.items, table),
    }
}

/// Reads the inputs of a job, whatever they are: 1 first, where the job's other inputs do not fit, or of the document's length or of the
/// environment; then the document. The scratch has room for any document.
pub fn read_inputs(
    others_fit: bool,
    document: &[u8],
    environment: &[u8],
    table: &mut [u16],
    text: &mut [u8],
) -> Result<Reading, Refusal>
    requires { (table_room ≤ length table.old) × (text_room ≤ length text.old) }
    ensures { InputsIs others_fit document.now environment.now
        table.old text.old table.new text.new result }
{
    if fits(others_fit, document, environment) {
        return read_document(document, table, text);
    }
    Err(Refusal {
        number: refusals::BAD_INPUT,
        place: DocAt(0),
    })
}

/// Whether a job's other inputs fit, its document is not too long and its environment is by its rule. They are looked at in this order.
pub fn fits(others_fit: bool, document: &[u8], environment: &[u8]) -> bool
    ensures { FitsIs others_fit document.now environment.now result }
{
    if others_fit {
        if limits::DOCUMENT < document.len() {
            return false;
        }
        return text_environment::is_valid(environment);
    }
    false
}

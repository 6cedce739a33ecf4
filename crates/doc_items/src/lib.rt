// The document in memory: a table of items in preorder and a text part. How a tree stands in them, and how an item is written. A picture
// of all the memory that a job is lent stands at the head of `specs/Room`.
//
// Computes: nothing of the rules; `specs/Holds` says which tree of `Tree` a table holds.
#![tactic(auto)]

ghost use Rattle.doc_items.specs.Writing.{ReadIs, FourAsked, FourIs, ItemAsked, ItemIs};
ghost use Rattle.doc_items.specs.Room.{number_bound};
ghost use Rattle.std.specs.Prelude.{◌≡◌, ◌<◌};

use codes::{kinds, limits};
use text_chars::{DocAt, TextAt, TextLen};

// ---- kinds of items

/// The kind of a value's item is that of its record.
pub const NULL: usize = kinds::NULL as usize;

pub const FALSE: usize = kinds::FALSE as usize;

pub const TRUE: usize = kinds::TRUE as usize;

pub const NUMBER: usize = kinds::NUMBER as usize;

pub const STRING: usize = kinds::STRING as usize;

pub const ARRAY: usize = kinds::ARRAY as usize;

pub const OBJECT: usize = kinds::OBJECT as usize;

/// A value that has a substitution among its pieces.
pub const UNRESOLVED: usize = 8;

/// A substitution that must be defined, `${..}`.
pub const REQUIRED: usize = 9;

/// A substitution that may be undefined, `${?..}`.
pub const OPTIONAL: usize = 10;

/// The kind of a piece is so much more, so that no piece is taken for a member.
pub const PIECE: usize = 16;

// ---- an item's columns

/// How many numbers an item has.
pub const WIDTH: usize = 8;

/// What it is.
pub const COLUMN_KIND: usize = 0;

/// How many items it has with those inside it.
pub const COLUMN_SIZE: usize = 1;

/// A field's key, or the whitespace before a piece: where its text begins, and how long it is.
pub const COLUMN_KEY: usize = 2;

pub const COLUMN_KEYLEN: usize = 3;

/// Its own text.
pub const COLUMN_TEXT: usize = 4;

pub const COLUMN_TEXTLEN: usize = 5;

/// Where it stands in the document.
pub const COLUMN_PLACE: usize = 6;

/// An unresolved value's number; of a substitution how many elements its path has.
pub const COLUMN_NUMBER: usize = 7;

// ---- a job's memory

/// Document 01's limit on items, which counts no root.
pub const MAX_ITEMS: usize = limits::ITEMS;

/// How many items a table has room for, the root's included. Apart from the limit on items: items that it does not count may join.
pub const CAPACITY: usize = limits::ITEMS + 1;

/// Where the index from an unresolved value's number to its item begins, behind the room for items.
pub const INDEX: usize = WIDTH * CAPACITY;

/// How many numbers a table has: its items, and the items of the unresolved values.
pub const TABLE: usize = INDEX + limits::UNRESOLVED;

/// Where the table has the answers of the unresolved values, behind their index.
pub const ANSWERS: usize = TABLE;

/// How many bytes the texts of a document may take: two for each of its own.
pub const TEXTS: usize = 2 * limits::DOCUMENT;

/// Where a job's bytes have the sheet's texts, behind the document's.
pub const SHEET: usize = TEXTS;

/// Where they have the trail's records.
pub const TRAIL: usize = SHEET + limits::ROOM;

/// How many there are.
pub const BYTES: usize = TRAIL + limits::ROOM;

/// The numbers of an item.
#[derive(Clone, Copy)]
pub struct Item {
    /// what it is
    pub kind: usize,
    /// how many items it has with those inside it
    pub size: usize,
    /// a field's key, or the whitespace before a piece
    pub key: TextAt,
    pub keylen: TextLen,
    /// its own text
    pub text: TextAt,
    pub textlen: TextLen,
    /// where it stands in the document
    pub place: DocAt,
    /// an unresolved value's number; of a substitution how many elements its path has
    pub number: usize,
}

// A number of the table, widened: what is asked is the index alone.
fn wide(x: u16) -> usize
    ensures { (result ≡ x) × (result < number_bound) }
{
    x as usize
}

/// A number of the table, 0 past its end.
pub fn number_at(table: &[u16], at: usize) -> usize
    ensures { ReadIs table.now at result }
{
    if at < table.len() { wide(table[at]) } else { 0 }
}

// Four numbers that fit, from a place of the table on.
fn put_four(table: &mut [u16], at: usize, a: usize, b: usize, c: usize, d: usize)
    requires { FourAsked at a b c d table.old }
    ensures { FourIs at a b c d table.old table.new }
{
    table[at] = a as u16;
    table[at + 1] = b as u16;
    table[at + 2] = c as u16;
    table[at + 3] = d as u16;
}

/// Writes an item.
pub fn put_item(table: &mut [u16], i: usize, x: Item)
    requires { ItemAsked i x table.old }
    ensures { ItemIs i x table.old table.new }
{
    let key = x.key;
    let keylen = x.keylen;
    put_four(table, WIDTH * i, x.kind, x.size, key.0, keylen.0);
    let text = x.text;
    let textlen = x.textlen;
    let place = x.place;
    put_four(
        table,
        WIDTH * i + COLUMN_TEXT,
        text.0,
        textlen.0,
        place.0,
        x.number,
    );
}

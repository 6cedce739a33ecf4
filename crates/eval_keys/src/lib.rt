// Key numbers. Equal key texts have equal numbers: the index of the first item with the text. 0 is no key's number. The numbers and the
// buckets by which they are found stand in columns of a job's table behind the answers of its unresolved values:
//   KEYS     of a field its key's number
//   BUCKETS  of each bucket its newest number
//   LINKS    of a number the next one of its bucket
//   FIRST    of a number the root's first field with it (crate eval_root_index)
//   NEXT     of a field of the root the next one with its number (crate eval_root_index)
// Computes: Bytes
#![tactic(auto)]

ghost use Rattle.std.specs.Prelude.{◌+◌, ◌≤◌, ◌<◌, length};
ghost use Rattle.doc_items.specs.Room.{capacity};
ghost use Rattle.eval_keys.specs.Texts.{bucket_count};
ghost use Rattle.eval_keys.specs.Clauses.{number_bound, Near, BucketIs, SameIs, HasKeyIs, FindIs, ClearIs, AddIs, NumberKeyIs, NumberKeysIs};
ghost use Rattle.eval_keys.specs.Columns.{Room};

use codes::limits;
use doc_items::{CAPACITY, COLUMN_KEY, COLUMN_KEYLEN, PIECE, WIDTH, number_at};
use text_chars::{TextAt, TextLen, text_byte};

/// Where the table has each column.
pub const KEYS: usize = doc_items::ANSWERS + limits::UNRESOLVED;

pub const BUCKETS: usize = KEYS + CAPACITY;

pub const LINKS: usize = BUCKETS + BUCKET_COUNT;

pub const FIRST: usize = LINKS + CAPACITY;

pub const NEXT: usize = FIRST + CAPACITY;

/// Where what stands behind them begins.
pub const COLUMNS_END: usize = NEXT + CAPACITY;

// How many buckets there are.
const BUCKET_COUNT: usize = 1024;

// How many numbers a text's bytes may come to, and what the bytes before one count by.
const HASHES: usize = 1048576;

const FACTOR: usize = 31;

// ---- the number of a text

// The bucket of a text: by all its bytes.
fn bucket(texts: &[u8], at: TextAt, len: TextLen) -> usize
    requires { Near at.0 len.0 }
    ensures { BucketIs texts.now at.0 len.0 result }
{
    let mut hash = 0;
    for i in 0..len.0 {
        let b = text_byte(texts, TextAt(at.0 + i)) as usize;
        hash = (hash * FACTOR + b) % HASHES;
    }
    (hash + hash / BUCKET_COUNT) % BUCKET_COUNT
}

// Whether two texts of one length are the same.
fn same_bytes(texts: &[u8], from: TextAt, at: TextAt, len: TextLen) -> bool
    requires { Near from.0 len.0 × Near at.0 len.0 }
    ensures { SameIs texts.now from.0 at.0 len.0 result }
{
    for i in 0..len.0 {
        if text_byte(texts, TextAt(from.0 + i)) != text_byte(texts, TextAt(at.0 + i)) {
            return false;
        }
    }
    true
}

// Whether an item's key is a text.
fn has_key(table: &[u16], texts: &[u8], i: usize, at: TextAt, len: TextLen) -> bool
    requires { (i < number_bound) × Near at.0 len.0 }
    ensures { HasKeyIs texts.now table.now i at.0 len.0 result }
{
    let from = number_at(table, WIDTH * i + COLUMN_KEY);
    let size = number_at(table, WIDTH * i + COLUMN_KEYLEN);
    if size == len.0 {
        return same_bytes(texts, TextAt(from), at, len);
    }
    false
}

// The number of a text whose bucket is b. The walk ends whatever the links are: those of a numbered table fall.
fn find_in(table: &[u16], texts: &[u8], b: usize, at: TextAt, len: TextLen) -> usize
    requires { BucketIs texts.now at.0 len.0 b × Near at.0 len.0 }
    ensures { FindIs texts.now table.now at.0 len.0 result }
{
    let mut r = number_at(table, BUCKETS + b);
    while r != 0 {
        if has_key(table, texts, r, at, len) {
            return r;
        }
        let next = number_at(table, LINKS + r);
        if r <= next {
            return 0;
        }
        r = next;
    }
    0
}

/// The number of a text: 0 if no field has it as its key.
pub fn find(table: &[u16], texts: &[u8], at: TextAt, len: TextLen) -> usize
    requires { Near at.0 len.0 }
    ensures { FindIs texts.now table.now at.0 len.0 result }
{
    let b = bucket(texts, at, len);
    find_in(table, texts, b, at, len)
}

// ---- the numbers of a document's keys

/// Zeros from an index up to another.
pub fn clear(table: &mut [u16], from: usize, end: usize)
    requires { (from ≤ end) × (end ≤ length table.old) }
    ensures { ClearIs from end table.old table.new }
{
    table[from..end].fill(0);
}

// A new number: it is the newest of its bucket.
fn add_number(table: &mut [u16], b: usize, i: usize)
    requires { Room table.old × (b < bucket_count) × (i < capacity) }
    ensures { AddIs b i table.old table.new }
{
    let next = number_at(table, BUCKETS + b);
    table[KEYS + i] = i as u16;
    table[LINKS + i] = next as u16;
    table[BUCKETS + b] = i as u16;
}

// Gives an item its key's number, if it is no piece.
fn number_key(table: &mut [u16], texts: &[u8], i: usize)
    requires { Room table.old × (1 ≤ i) × (i < capacity) }
    ensures { NumberKeyIs texts.now i table.old table.new }
{
    if PIECE <= number_at(table, WIDTH * i) {
        return;
    }
    let at = TextAt(number_at(table, WIDTH * i + COLUMN_KEY));
    let len = TextLen(number_at(table, WIDTH * i + COLUMN_KEYLEN));
    let b = bucket(texts, at, len);
    let k = find_in(table, texts, b, at, len);
    if k == 0 {
        add_number(table, b, i);
        return;
    }
    table[KEYS + i] = k as u16;
}

/// Gives each field of so many items, the root not counted, its key's number. The table may have held any numbers.
pub fn number_keys(table: &mut [u16], texts: &[u8], items: usize)
    requires { Room table.old × (items < capacity) }
    ensures { NumberKeysIs texts.now items table.old table.new }
{
    clear(table, BUCKETS, LINKS);
    for i in 1..=items {
        number_key(table, texts, i);
    }
}

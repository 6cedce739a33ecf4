// Reads documents from standard input, one after another to its end. A vector is a document and an environment; each of the
// two is a length of 4 bytes, high byte first, and then so many bytes. For a refusal it writes a line 'number place' in
// decimal; else a line '0 items unresolved' and, where the document has at most 64 bytes, a line for the root and each item:
// 'kind size key text place number', the two texts in hexadecimal, an empty one as '-'. The text of a substitution is that of
// its path's elements with their ends behind it, 2 bytes each. A part that is cut off or too long ends the program, and so does a read or a write
// that fails, with an error.
#![tactic(auto)]

ghost use Rattle.std.specs.Prelude.{◌*◌, ◌<◌};
ghost use Rattle.doc_items.specs.Codes.{width};
ghost use Rattle.doc_items.specs.Room.{number_bound, capacity};

use doc_items::{
    COLUMN_KEY, COLUMN_KEYLEN, COLUMN_KIND, COLUMN_NUMBER, COLUMN_PLACE, COLUMN_SIZE, COLUMN_TEXT,
    COLUMN_TEXTLEN,
};
use std::io;

/// The first kind of a substitution; there is no kind behind the two.
const SUBSTITUTION: usize = doc_items::PIECE + doc_items::REQUIRED;

fn widen(n: u16) -> usize
    ensures { result < number_bound }
{
    n as usize
}

// Column c of item i.
fn column(table: &[u16], i: usize, c: usize) -> usize
    requires i_lt_capacity { i < capacity }
    requires c_lt_width { c < width }
    ensures { result < number_bound }
{
    let k = doc_items::WIDTH * i + c;
    if k < table.len() { widen(table[k]) } else { 0 }
}

// The size of item i's text; behind the texts of a substitution's path stand their ends, 2 bytes each.
fn text_size(table: &[u16], i: usize) -> usize
    requires { i < capacity }
    ensures { result < 4 * number_bound }
{
    let size = column(table, i, COLUMN_TEXTLEN);
    if column(table, i, COLUMN_KIND) < SUBSTITUTION {
        return size;
    }
    size + 2 * column(table, i, COLUMN_NUMBER)
}

// Writes the line of item i; the items before `simple` are pieces of a simple value, whose texts are not looked at: the value has them
// joined. Answers how far that reaches now.
fn print_item(
    rt: &HostRuntime,
    table: &[u16],
    text: &[u8],
    i: usize,
    simple: usize,
) -> io::Result<usize>
    requires { i < capacity }
{
    let kind = column(table, i, COLUMN_KIND);
    let size = column(table, i, COLUMN_SIZE);
    test_cases::print_number(rt, kind)?;
    test_cases::print_number(rt, size)?;
    if simple <= i {
        test_cases::print_text(
            rt,
            text,
            column(table, i, COLUMN_KEY),
            column(table, i, COLUMN_KEYLEN),
        )?;
        test_cases::print_text(rt, text, column(table, i, COLUMN_TEXT), text_size(table, i))?;
    } else {
        rt.print("- - ")?;
    }
    test_cases::print_number(rt, column(table, i, COLUMN_PLACE))?;
    test_cases::print_last(rt, column(table, i, COLUMN_NUMBER))?;
    if kind < doc_items::ARRAY {
        Ok(i + size)
    } else {
        Ok(simple)
    }
}

// Writes the root's line and those of so many items.
fn print_items(rt: &HostRuntime, table: &[u16], text: &[u8], items: usize) -> io::Result<()> {
    let mut simple = 0;
    for i in 0..doc_items::CAPACITY {
        if items < i {
            break;
        }
        simple = print_item(rt, table, text, i, simple)?;
    }
    Ok(())
}

fn run(rt: &HostRuntime, document: &[u8], environment: &[u8]) -> io::Result<()> {
    let mut table = [0u16; doc_items::TABLE];
    let mut text = [0u8; doc_items::TEXTS];
    match read_documents::read_inputs(true, document, environment, &mut table, &mut text) {
        Ok(read) => {
            rt.print("0 ")?;
            test_cases::print_number(rt, read.items)?;
            test_cases::print_last(rt, read.unresolved)?;
            if document.len() <= 64 {
                print_items(rt, &table, &text, read.items)?;
            }
            Ok(())
        }
        Err(e) => test_cases::print_answer(rt, e.number, e.place),
    }
}

// Runs the next vector, and answers whether there was one.
fn run_next(rt: &HostRuntime) -> io::Result<bool> {
    let document = test_cases::next_part(rt, true)?;
    let environment = test_cases::next_part(rt, document.there)?;
    if environment.there {
        run(
            rt,
            &document.bytes[..document.size],
            &environment.bytes[..environment.size],
        )?;
    }
    Ok(environment.there)
}

// A loop that is proved has to end, and nothing says that the input does: hence the count of turns.
fn main(rt: HostRuntime) -> io::Result<()> {
    for _ in 0..u64::MAX {
        if !run_next(&rt)? {
            break;
        }
    }
    Ok(())
}

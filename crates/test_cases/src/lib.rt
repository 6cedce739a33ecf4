// What the programs that run vectors share: numbers and parts of a vector on standard input, and numbers and parts on standard output.
// A number is 4 bytes, high byte first; a part is its length, a number, and then so many bytes. A read or a write that fails is handed on.
#![tactic(auto)]

ghost use Rattle.std.specs.Prelude.{◌≡◌, ◌<◌, ◌≤◌, IfOk, length, take};

use std::io;
use std::io::Read;
use text_chars::DocAt;

// Room for a part that is longer than may be lent.
const ROOM: usize = 40000;

// A sheet whose table has no more is written out.
const SHOWN: usize = 256;

// What a careless caller left in a buffer.
const REST: u8 = 165;

/// A part of a vector: so many bytes at the start of its room. At the end of the input it is not there.
#[derive(Clone, Copy)]
pub struct Part {
    pub bytes: [u8; 40000],
    pub size: usize,
    pub there: bool,
}

pub fn wide(b: u8) -> usize
    ensures { result < 256 }
{
    b as usize
}

fn number_of(head: &[u8; 4]) -> usize
    ensures { result < 4294967296 }
{
    let high = wide(head[0]) * 256 + wide(head[1]);
    let low = wide(head[2]) * 256 + wide(head[3]);
    high * 65536 + low
}

// So many bytes of buf as the length says: none where it is negative, and never more than there are.
fn count(wanted: isize, buf: &[u8]) -> usize
    ensures { result ≤ length buf.now }
{
    if wanted < 0 {
        return 0;
    }
    let n = wanted as usize;
    if buf.len() < n { buf.len() } else { n }
}

// Reads until buf is full or the input ends, and answers how many bytes stand at the start of buf then.
fn read_full(rt: &HostRuntime, buf: &mut [u8]) -> io::Result<usize>
    ensures { IfOk result (λ n. n ≤ length buf.new) }
{
    let mut done = 0;
    while done < buf.len() {
        let n = Read::read(&mut rt.stdin(), &mut buf[done..])?;
        if n == 0 {
            return Ok(done);
        }
        done += n;
    }
    Ok(done)
}

/// Reads the next number; -1 at the end of the input.
pub fn read_number(rt: &HostRuntime) -> io::Result<isize> {
    let mut head = [0u8; 4];
    let got = read_full(rt, &mut head)?;
    if got == 4 {
        return Ok(number_of(&head) as isize);
    }
    if got > 0 {
        rt.print("a number is cut off\n")?;
    }
    Ok(-1)
}

// Reads so many bytes into buf, and answers whether they were there; writes a line that says what is wrong.
fn read_bytes(rt: &HostRuntime, buf: &mut [u8], length: isize) -> io::Result<bool> {
    if length < 0 {
        return Ok(false);
    }
    let n = count(length, buf);
    if n < length as usize {
        rt.print("a part is too long\n")?;
        return Ok(false);
    }
    if read_full(rt, &mut buf[..n])? < n {
        rt.print("a part is cut off\n")?;
        return Ok(false);
    }
    Ok(true)
}

/// Reads the next part, if what stands before it was there. It is handed back whole, so that a program lends nothing to read it.
pub fn next_part(rt: &HostRuntime, before: bool) -> io::Result<Part>
    ensures value { IfOk result (λ part. 40000 ≡ length part.bytes) }
    ensures prefix_len { IfOk result (λ part. part.size ≤ length part.bytes) }
    ensures taken { IfOk result (λ part. part.size ≡ length (take part.size part.bytes)) }
{
    let length = if before { read_number(rt)? } else { -1 };
    let mut bytes = [0u8; ROOM];
    let there = read_bytes(rt, &mut bytes, length)?;
    let size = count(length, &bytes);
    Ok(Part { bytes, size, there })
}

/// Reads a length, and hands back a buffer that has it, as a careless caller left it.
pub fn next_room(rt: &HostRuntime) -> io::Result<Part>
    ensures value { IfOk result (λ part. 40000 ≡ length part.bytes) }
    ensures prefix_len { IfOk result (λ part. part.size ≤ length part.bytes) }
    ensures taken { IfOk result (λ part. part.size ≡ length (take part.size part.bytes)) }
{
    let length = read_number(rt)?;
    let bytes = [REST; ROOM];
    let size = count(length, &bytes);
    Ok(Part {
        bytes,
        size,
        there: 0 <= length,
    })
}

/// The bytes of a part that begins at `from`, so many of them as there are.
pub fn part_of(bytes: &[u8], from: usize, size: usize) -> &[u8] {
    if bytes.len() < from {
        return &bytes[0..0];
    }
    if bytes.len() - from < size {
        return &bytes[from..];
    }
    &bytes[from..from + size]
}

/// Writes n in decimal, and a space.
pub fn print_number(rt: &HostRuntime, n: usize) -> io::Result<()> {
    print!(rt; "{n} ")
}

/// Writes n in decimal, and ends the line.
pub fn print_last(rt: &HostRuntime, n: usize) -> io::Result<()> {
    println!(rt; "{n}")
}

/// Writes the line of a number and a place.
pub fn print_answer(rt: &HostRuntime, number: u8, place: DocAt) -> io::Result<()> {
    print_number(rt, wide(number))?;
    print_last(rt, place.0)
}

// Writes a part in hexadecimal, an empty one as '-', and what stands behind it.
fn print_part(rt: &HostRuntime, part: &[u8], behind: &str) -> io::Result<()> {
    if part.len() == 0 {
        rt.print("-")?;
    }
    for byte in part {
        print!(rt; "{byte:02x}")?;
    }
    rt.print(behind)
}

/// Writes the part of the bytes that begins at `from`, and a space.
pub fn print_text(rt: &HostRuntime, bytes: &[u8], from: usize, size: usize) -> io::Result<()> {
    print_part(rt, part_of(bytes, from, size), " ")
}

/// Writes a sheet: its count and the lengths of its parts, where its table is short the parts, and the word before what check says.
pub fn print_sheet(
    rt: &HostRuntime,
    count: usize,
    trail: &[u8],
    table: &[u8],
    text: &[u8],
) -> io::Result<()> {
    rt.print("0 ")?;
    print_number(rt, count)?;
    print_number(rt, trail.len())?;
    print_number(rt, table.len())?;
    print_last(rt, text.len())?;
    if table.len() <= SHOWN {
        print_part(rt, trail, " ")?;
        print_part(rt, table, " ")?;
        print_part(rt, text, "\n")?;
    }
    rt.print("check ")
}

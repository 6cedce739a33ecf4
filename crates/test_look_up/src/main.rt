// Runs look-ups from standard input, one after another to its end. A look-up is its table, its text and its path text; each
// of the three is a length of 4 bytes, high byte first, and then so many bytes. For each look-up it writes a line
// 'number place start size kind length' in decimal: `look_up_answer`, and of the part that `look_up` hands back its first
// byte (of an empty one 0) and its length. A part that is cut off or too long ends the program, and so does a read or a write that fails, with an error.
#![tactic(auto)]

use std::io;

fn run(rt: &HostRuntime, table: &[u8], text: &[u8], path: &[u8]) -> io::Result<()> {
    match job_look_up::look_up_answer(table, text, path) {
        Ok(part) => print!(rt; "0 0 {} {} ", part.start.0, part.size.0)?,
        Err(refusal) => print!(rt; "{} {} 0 0 ", refusal.number, refusal.place.0)?,
    }
    let part = job_look_up::look_up(table, text, path);
    println!(rt; "{} {}", part.first().copied().unwrap_or(0), part.len())
}

// Runs the next look-up, and answers whether there was one.
fn run_next(rt: &HostRuntime) -> io::Result<bool> {
    let table = test_cases::next_part(rt, true)?;
    let text = test_cases::next_part(rt, table.there)?;
    let path = test_cases::next_part(rt, text.there)?;
    if path.there {
        run(
            rt,
            &table.bytes[..table.size],
            &text.bytes[..text.size],
            &path.bytes[..path.size],
        )?;
    }
    Ok(path.there)
}

// A loop that is proved has to end, and nothing says that the input does: hence the count of turns.
fn main(rt: HostRuntime) -> io::Result<()> {
    for _ in 0..u64::MAX {
        if !run_next(&rt)? {
            break;
        }
    }
    Ok(())
}

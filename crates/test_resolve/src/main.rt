// Runs resolve and check on vectors from standard input, one after another to its end. A vector is a number, 1 to resolve and 2 to
// check, its document and its environment, each a part, and what else the job is given. Resolve is given four numbers, the budget and
// the lengths of the three buffers; check is given a sheet's trail, table and text, each a part. Resolve writes a line 'number place' in
// decimal for a refusal; else a line '0 count trail table text' with the used lengths; where the table has at most 256 bytes, a line
// with the three used parts in hexadecimal, an empty one as '-'; and a line 'check number place' with what check says of the sheet. Check
// writes a line 'number place'. A part that is cut off or too long ends the program, and so does a read or
// a write that fails, with an error.
#![tactic(auto)]

use job_results::Resolution;
use std::io;
use text_chars::DocAt;

// The job of a vector that is no resolution.
const CHECK: isize = 2;

fn run_check(
    rt: &HostRuntime,
    document: &[u8],
    environment: &[u8],
    trail: &[u8],
    table: &[u8],
    text: &[u8],
) -> io::Result<()> {
    match job_check::check(document, environment, trail, table, text) {
        Ok(()) => test_cases::print_answer(rt, 0, DocAt(0)),
        Err(refusal) => test_cases::print_answer(rt, refusal.number, refusal.place),
    }
}

// Resolves, and writes the refusal, or the used parts of the three buffers and what check says of them.
fn run_resolve(
    rt: &HostRuntime,
    document: &[u8],
    environment: &[u8],
    budget: u64,
    trail: &mut [u8],
    table: &mut [u8],
    text: &mut [u8],
) -> io::Result<()> {
    match job_resolve::resolve(document, environment, budget, trail, table, text) {
        Err(refusal) => test_cases::print_answer(rt, refusal.number, refusal.place),
        Ok(
            Resolution {
                count,
                trail: a,
                table: b,
                text: c,
            },
        ) => {
            let sent = test_cases::part_of(trail, 0, a.0);
            let sheet = test_cases::part_of(table, 0, b.0);
            let texts = test_cases::part_of(text, 0, c.0);
            test_cases::print_sheet(rt, count, sent, sheet, texts)?;
            run_check(rt, document, environment, sent, sheet, texts)
        }
    }
}

// Reads the budget and the lengths of the buffers, and resolves; answers whether they were there.
fn next_resolve(rt: &HostRuntime, document: &[u8], environment: &[u8]) -> io::Result<bool> {
    // a budget over the room is far over the limit
    let budget = test_cases::next_room(rt)?;
    let trail = test_cases::next_room(rt)?;
    let table = test_cases::next_room(rt)?;
    let text = test_cases::next_room(rt)?;
    let mut a = trail.bytes;
    let mut b = table.bytes;
    let mut c = text.bytes;
    let n = trail.size;
    let m = table.size;
    let k = text.size;
    let most = budget.size;
    if text.there {
        run_resolve(
            rt,
            document,
            environment,
            most as u64,
            &mut a[..n],
            &mut b[..m],
            &mut c[..k],
        )?;
    }
    Ok(text.there)
}

// Reads a sheet, and checks it; answers whether it was there.
fn next_check(rt: &HostRuntime, document: &[u8], environment: &[u8]) -> io::Result<bool> {
    let trail = test_cases::next_part(rt, true)?;
    let table = test_cases::next_part(rt, trail.there)?;
    let text = test_cases::next_part(rt, table.there)?;
    if text.there {
        run_check(
            rt,
            document,
            environment,
            &trail.bytes[..trail.size],
            &table.bytes[..table.size],
            &text.bytes[..text.size],
        )?;
    }
    Ok(text.there)
}

// Runs the next vector, and answers whether there was one.
fn run_next(rt: &HostRuntime) -> io::Result<bool> {
    let job = test_cases::read_number(rt)?;
    let document = test_cases::next_part(rt, 0 <= job)?;
    let environment = test_cases::next_part(rt, document.there)?;
    if !environment.there {
        return Ok(false);
    }
    let document = &document.bytes[..document.size];
    let environment = &environment.bytes[..environment.size];
    if job == CHECK {
        next_check(rt, document, environment)
    } else {
        next_resolve(rt, document, environment)
    }
}

// A loop that is proved has to end, and nothing says that the input does: hence the count of turns.
fn main(rt: HostRuntime) -> io::Result<()> {
    for _ in 0..u64::MAX {
        if !run_next(&rt)? {
            break;
        }
    }
    Ok(())
}

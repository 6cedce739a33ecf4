// A run of records of one byte each, copied from a job's bytes into a value's room as it stands.
// Computes: Sheet
ghost use Rattle.std.specs.Prelude.{◌+◌, ◌≤◌, length, take, drop};
ghost use Rattle.eval_writer.specs.Clauses.{Room, Puts};
ghost use Rattle.eval_writer.specs.Copies.Contracts.{Span};
ghost use Rattle.eval_copy.specs.Runs.Contracts.{RunOf, RunDone};

use codes::limits;
use eval_writer::copies::Copied;
use eval_writer::{Out, fill};
use sheet_runs::run_end;
use text_chars::RecAt;

// How many of so many members that are left stand at a place as records of one byte each. An object's members have keys, so that none does.
fn run_length(bytes: &[u8], keyed: bool, at: RecAt, left: usize) -> usize
    ensures { RunOf bytes.now keyed at.0 left result }
{
    if keyed {
        return 0;
    }
    if bytes.len() <= at.0 {
        return 0;
    }
    let most = (bytes.len() - at.0).min(left);
    let end = run_end(bytes, at, RecAt(at.0 + most));
    end.0 - at.0
}

// So many bytes, as many of them as have room among the records.
fn put_run(room: &mut [u8], at: RecAt, bytes: &[u8], from: RecAt, n: usize)
    requires { Room room.old × (from.0 + n ≤ length bytes.now) }
    ensures { Puts at.0 (take n (drop from.0 bytes.now)) room.old room.new }
{
    if limits::RECORDS <= at.0 {
        return;
    }
    let m = (limits::RECORDS - at.0).min(n);
    fill(room, at.0, bytes, from.0, m);
}

/// Of so many members that are left, those that stand next as records of one byte each, copied as they stand. More of them may follow.
/// What was copied before is so deep.
pub fn copy_run(
    room: &mut [u8],
    bytes: &[u8],
    keyed: bool,
    before: usize,
    c: Copied,
    left: usize,
) -> Copied
    requires { Room room.old × Span bytes.now c.next.0 c.out × (c.next.0 ≤ length bytes.now + 10) }
    ensures { RunDone bytes.now keyed left before c result room.old room.new }
{
    let deep = before.max(c.deep);
    let n = run_length(bytes, keyed, c.next, left);
    if n == 0 {
        return Copied { deep, ..c };
    }
    put_run(room, c.out.rec, bytes, c.next, n);
    Copied {
        next: RecAt(c.next.0 + n),
        out: Out {
            rec: RecAt(c.out.rec.0 + n),
            ..c.out
        },
        deep,
    }
}

// Bytes moved inside one buffer, to make room for what an edit puts in or to close up what it takes out.
#![tactic(auto)]

ghost use Rattle.std.specs.Prelude.{◌+◌, ◌≤◌, length};
ghost use Rattle.table_moves.specs.Clauses.{Moved};

// To a higher place: the last byte first, so that none is written over before it is read.
fn move_up(s: &mut [u8], from: usize, to: usize, n: usize)
    requires { (from ≤ to) × (to + n ≤ length s.old) }
    ensures { Moved from to n s.old s.new }
{
    for j in (0..n).rev() {
        s[to + j] = s[from + j];
    }
}

// To a lower place: the first byte first.
fn move_down(s: &mut [u8], from: usize, to: usize, n: usize)
    requires { (to ≤ from) × (from + n ≤ length s.old) }
    ensures { Moved from to n s.old s.new }
{
    for i in 0..n {
        s[to + i] = s[from + i];
    }
}

/// Moves so many bytes from one place to another. The two may overlap.
pub fn move_bytes(s: &mut [u8], from: usize, to: usize, n: usize)
    requires { (from + n ≤ length s.old) × (to + n ≤ length s.old) }
    ensures { Moved from to n s.old s.new }
{
    if from < to {
        move_up(s, from, to, n);
        return;
    }
    move_down(s, from, to, n);
}

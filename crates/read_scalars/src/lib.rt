// Simple values: what each is by its record, with its text in a buffer that the caller lends.
// Computes: Pieces
#![tactic(auto)]

ghost use Rattle.text_pieces.specs.Clauses.{PieceAsked};
ghost use Rattle.read_scalars.specs.Scalars.{WrittenAsked, WrittenIs, ScalarIs};

use codes::kinds;
use text_chars::{Cursor, Refusal, TextLen};
use text_pieces::Piece;

/// A simple piece that was read: its kind by its record's number, the cursor past it, and the size of its text, which stands at the start
/// of the buffer.
#[derive(Clone, Copy)]
pub struct ScalarRead {
    pub kind: u8,
    pub next: Cursor,
    pub size: TextLen,
}

// A piece that is no quoted one: its bytes as written.
fn copy_written(s: &[u8], c: Cursor, next: Cursor, kind: u8, text: &mut [u8]) -> ScalarRead
    requires { WrittenAsked s.now c.at.0 next.at.0 text.old }
    ensures { WrittenIs s.now c.at.0 kind next text.old text.new result }
{
    ScalarRead {
        kind,
        next,
        size: TextLen(text_bytes::copy(s, c.at, next.at, text)),
    }
}

/// The simple piece at a place where one begins.
pub fn scalar(s: &[u8], c: Cursor, text: &mut [u8]) -> Result<ScalarRead, Refusal>
    requires { PieceAsked s.now c.at.0 text.old }
    ensures { ScalarIs s.now c.at.0 text.old text.new result }
{
    match text_pieces::piece_at(s, c, text)? {
        Piece::Quoted { next, used } => Ok(ScalarRead {
            kind: kinds::STRING,
            next,
            size: used,
        }),
        Piece::Unquoted { next } => Ok(copy_written(s, c, next, kinds::STRING, text)),
        Piece::Plain { kind, next } => Ok(copy_written(s, c, next, kind, text)),
    }
}

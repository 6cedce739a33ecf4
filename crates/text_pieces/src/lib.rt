// Simple pieces: strings in quotes, numbers, words and unquoted text.
// Computes: Pieces
#![tactic(auto)]

ghost use Rattle.std.specs.Prelude.{◌≡◌, ◌-◌, ◌≤◌, length, Ok};
ghost use Rattle.rules.specs.Sizes.{max_document};
ghost use Rattle.rules.specs.Bytes.{byte_at};
ghost use Rattle.rules.specs.Pieces.{unquoted_at, number_at, simple_at};
ghost use Rattle.text_pieces.specs.Clauses.{LeadIs, TextAsked, ScanIs, quoted_token, PieceAsked, PieceIs};

use codes::{bytes, kinds, refusals};
use text_chars::{Cursor, Refusal, TextLen};
use text_unquoted::Word;

/// A simple piece that was read, with the cursor past it.
#[derive(Clone, Copy)]
pub enum Piece {
    // in quotes, once or three times: so many bytes of text, written to a lent buffer
    Quoted { next: Cursor, used: TextLen },
    // unquoted text, as it stands
    Unquoted { next: Cursor },
    // a number or one of the words null, false and true, by the kind of their records
    Plain { kind: u8, next: Cursor },
}

// What a simple piece begins with.
#[derive(Clone, Copy)]
enum Lead {
    // a quote
    Quote,
    // a digit or `-`
    Number,
    // any other character
    Text,
}

fn lead_of(s: &[u8], c: Cursor) -> Lead
    requires { (length s.now ≤ max_document) × (c.at.0 ≤ length s.now) }
    ensures { LeadIs s.now c.at.0 result }
{
    let seen = text_scan::look(s, c);
    let ch = seen.ch;
    if ch == bytes::QUOTE {
        return Lead::Quote;
    }
    if ch == bytes::MINUS {
        return Lead::Number;
    }
    if text_numbers::is_digit(ch) {
        Lead::Number
    } else {
        Lead::Text
    }
}

// A word, or unquoted text.
fn text_piece(s: &[u8], c: Cursor) -> Piece
    requires { TextAsked s.now c.at.0 }
    ensures { ScanIs (unquoted_at s.now c.at.0) s.now c.at.0 (Ok result) }
{
    match text_unquoted::word_at(s, c) {
        Word::True(next) => Piece::Plain {
            kind: kinds::TRUE,
            next,
        },
        Word::False(next) => Piece::Plain {
            kind: kinds::FALSE,
            next,
        },
        Word::Null(next) => Piece::Plain {
            kind: kinds::NULL,
            next,
        },
        Word::Other => Piece::Unquoted {
            next: text_unquoted::unquoted_end(s, c),
        },
    }
}

// A number, or a refusal at its first byte.
fn number_piece(s: &[u8], c: Cursor) -> Result<Piece, Refusal>
    requires { (length s.now ≤ max_document) × (c.at.0 ≤ length s.now) }
    ensures { ScanIs (number_at s.now c.at.0) s.now c.at.0 result }
{
    let Some(next) = text_numbers::after_number(s, c) else {
        return Err(Refusal {
            number: refusals::BAD_NUMBER_OR_STRING,
            place: c.at,
        });
    };
    Ok(Piece::Plain {
        kind: kinds::NUMBER,
        next,
    })
}

// A string in quotes.
fn quoted_piece(s: &[u8], c: Cursor, out: &mut [u8]) -> Result<Piece, Refusal>
    requires { (length s.now ≤ max_document) × (byte_at s.now c.at.0 ≡ 34) × (length s.now - c.at.0 ≤ length out.old) }
    ensures { PieceIs (quoted_token s.now c.at.0) s.now c.at.0
        out.old out.new result }
{
    let text = text_strings::read_quoted(s, c, out)?;
    Ok(Piece::Quoted {
        next: text.next,
        used: text.used,
    })
}

/// The simple piece at a place where one begins; refused are a bad string, and a `-` that starts no number.
pub fn piece_at(s: &[u8], c: Cursor, out: &mut [u8]) -> Result<Piece, Refusal>
    requires { PieceAsked s.now c.at.0 out.old }
    ensures { PieceIs (simple_at s.now c.at.0) s.now c.at.0
        out.old out.new result }
{
    match lead_of(s, c) {
        Lead::Quote => quoted_piece(s, c, out),
        Lead::Number => number_piece(s, c),
        Lead::Text => Ok(text_piece(s, c)),
    }
}

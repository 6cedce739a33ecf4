// What one piece of an unresolved value comes to before it is written: a text of the environment, or what its layers come to.
// Computes: Unresolved (substitution_value up to its value), Layers (node_value likewise)
#![tactic(auto)]

pub mod cursor;

ghost use Rattle.std.specs.Prelude.{◌<◌, ◌≤◌};
ghost use Rattle.doc_items.specs.Room.{capacity};
ghost use Rattle.eval_nodes.specs.Clauses.{Few};
ghost use Rattle.eval_stack.specs.Model.{entries, Work};
ghost use Rattle.eval_pieces.specs.Clauses.{Lent, EnvironmentAsked, EnvironmentIs, LiteralIs, ReferenceIs, PieceIs};

use codes::limits;
use doc_items::{PIECE, REQUIRED, WIDTH, number_at};
use eval_environment::{Asked, or_environment};
use eval_layers::{Taken, gather};
use eval_stack::push;
use eval_substitutions::path_layers;
use text_chars::{DocAt, EnvAt, EnvLen};

/// What a piece comes to.
#[derive(Clone, Copy)]
pub enum Piece {
    // a text of the environment
    Text { start: EnvAt, size: EnvLen },
    // it is undefined
    Undefined,
    // a layer that is no object; the stack is free from top on
    One { top: usize, layer: usize },
    // the merge of the objects from lo to hi on the stack
    Merged { lo: usize, hi: usize },
    // the answer of this question is needed first
    Needs(usize),
    // a required substitution is undefined: refusal 9 at its place
    Missing(DocAt),
}

// The substitution at item i, whose path is undefined.
fn of_environment(table: &[u16], texts: &[u8], env: &[u8], i: usize) -> Piece
    requires { EnvironmentAsked env.now i }
    ensures { EnvironmentIs table.now texts.now env.now i result }
{
    match or_environment(table, texts, env, i) {
        Asked::Text { start, size } => Piece::Text { start, size },
        Asked::Undefined => Piece::Undefined,
        Asked::Missing(place) => Piece::Missing(place),
    }
}

// A substitution: what the layers of its path come to, else the environment.
fn reference(
    table: &[u16],
    records: &[u8],
    bytes: &[u8],
    env: &[u8],
    work: &mut [u16],
    base: usize,
    item: usize,
    i: usize,
) -> Piece
    requires { Few records.now × Lent bytes.now env.now work.old base item i }
    ensures { ReferenceIs table.now records.now bytes.now env.now base item i
        work.old work.new result }
{
    let part = path_layers(table, records, bytes, work, base, item, i);
    let top = part.hi;
    match gather(table, records, work, part) {
        Taken::Nothing => of_environment(table, bytes, env, i),
        Taken::One(layer) => Piece::One { top, layer },
        Taken::Needs(b) => Piece::Needs(b),
        Taken::Merged(hi) => Piece::Merged { lo: top, hi },
    }
}

// A piece that is written: an object is one layer of its own.
fn literal(table: &[u16], work: &mut [u16], base: usize, i: usize) -> Piece
    requires { Work work.old × (base ≤ entries) × (i < capacity) }
    ensures { LiteralIs table.now base i work.old work.new result }
{
    if number_at(table, WIDTH * i) == PIECE + doc_items::OBJECT {
        let hi = push(work, base, i);
        return Piece::Merged { lo: base, hi };
    }
    Piece::One {
        top: base,
        layer: i,
    }
}

/// The piece at item i of the unresolved value at another item. The stack is free from base on.
pub fn piece_of(
    table: &[u16],
    bytes: &[u8],
    env: &[u8],
    work: &mut [u16],
    base: usize,
    item: usize,
    i: usize,
) -> Piece
    requires { Lent bytes.now env.now work.old base item i }
    ensures { PieceIs table.now bytes.now env.now base item i work.old work.new result }
{
    if number_at(table, WIDTH * i) < PIECE + REQUIRED {
        return literal(table, work, base, i);
    }
    let from = doc_items::TRAIL;
    let end = from + limits::ROOM;
    let records = &bytes[from..end];
    reference(table, records, bytes, env, work, base, item, i)
}

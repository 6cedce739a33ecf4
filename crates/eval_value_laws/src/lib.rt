// What the functions of `eval_value_cases` and `eval_values` answer and promise, and a law for each place where one of them returns.
// No code.
#![tactic(auto)]

use eval_layers::Taken;
use eval_results::values::Worked;
use eval_writer::Out;

/// What a value is written from.
#[derive(Clone, Copy)]
pub enum Origin {
    /// From nothing: it is undefined.
    Nothing,
    /// The answer of this question is needed first.
    Needs(usize),
    /// From the finished value whose record is at this offset of the source's records.
    Finished(usize),
    /// From this item, a simple value.
    Simple(usize),
    /// From the elements of this item, an array.
    Array(usize),
    /// From the members of this layer, an object.
    Object(usize),
    /// From the members of the objects that stand on the stack up to here.
    Objects(usize),
}

/// How a value begins: what needs no others is written.
#[derive(Clone, Copy)]
pub enum Begun {
    /// There is no more to it.
    Ended(Worked),
    /// The elements of this array are still to be written, then its head.
    Elements(usize),
    /// The members from base to top are still to be written, key by key, then the object's head.
    Members { base: usize, top: usize },
}

/// What is met at an entry of an object's members.
#[derive(Clone, Copy)]
pub enum Field {
    /// Nothing to write: no first member of its key, or a key that is undefined.
    Pass,
    /// The answer of this question is needed first.
    Needs(usize),
    /// A key, which is written. What its layers came to goes behind it.
    At { taken: Taken, out: Out },
}

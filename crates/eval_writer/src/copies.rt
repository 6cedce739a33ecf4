// How far the copy of a finished value's records has come. Any bytes may stand there. The copying of one record stands in eval_copy;
// its promises are here (specs/Clauses), as others build on them.
// Computes: Sheet
use crate::Out;
use text_chars::RecAt;

/// How far copying has come.
#[derive(Clone, Copy)]
pub struct Copied {
    /// the next record
    pub next: RecAt,
    /// what is written
    pub out: Out,
    /// how deep it is nested
    pub deep: usize,
}

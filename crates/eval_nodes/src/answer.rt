// The answer of an unresolved value as a job's table has it, and as a layer's number.
// Computes: Layers (by the model of eval_nodes)
ghost use Rattle.std.specs.Prelude.{◌≡◌, ◌<◌};
ghost use Rattle.eval_nodes.specs.Answer.Model.{answered, answer_room};

/// A node as a layer.
#[derive(Clone, Copy)]
pub enum Answered {
    /// The number of a layer: the node's own, or that of the value it was answered with.
    Layer(usize),
    /// An unresolved value that came to nothing.
    Undefined,
    /// An unresolved value, by its question number, that has no answer yet.
    Missing(usize),
}

// What the table has of an answer: none yet, undefined, else its record's offset in the trail and so many more.
const NONE: usize = 0;

const UNDEFINED: usize = 1;

const FIRST_RECORD: usize = 2;

/// The layer of question b, whose answer is a number of the table.
pub fn answer_of(b: usize, a: usize) -> Answered
    requires { a < answer_room }
    ensures { result ≡ answered b a }
{
    if a == NONE {
        return Answered::Missing(b);
    }
    if a == UNDEFINED {
        return Answered::Undefined;
    }
    Answered::Layer(doc_items::CAPACITY + (a - FIRST_RECORD))
}

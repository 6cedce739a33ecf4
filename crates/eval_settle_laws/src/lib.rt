// What the functions of `eval_settle` promise, and a law for each place where one of them returns. No code.
// What the functions of `eval_needs` promise, and a law for each place where one of them returns. No code but what they give.
// A law for each place where `need_of_key` of `eval_needs` returns. No code.
#![tactic(auto)]

/// What stands in a span.
#[derive(Clone, Copy)]
pub enum Kind {
    /// Elements of an array of the document: places are items.
    Elements,
    /// Members of merged objects, grouped by key: places are entries of the stack.
    Keys,
}

/// Places one behind the other, from one to another. The stack is free from `top` on.
#[derive(Clone, Copy)]
pub struct Span {
    pub kind: Kind,
    pub from: usize,
    pub end: usize,
    pub top: usize,
}

/// What is needed before a value can be evaluated.
#[derive(Clone, Copy)]
pub enum Need {
    Nothing,
    /// The answer of an unresolved value, which is missing.
    Answer(usize),
    /// What the values in a span need.
    Inside(Span),
}

/// What is needed at a place, and which place comes then.
#[derive(Clone, Copy)]
pub struct Met {
    pub need: Need,
    pub next: usize,
}

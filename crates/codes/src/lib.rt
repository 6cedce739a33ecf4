// Document 01's numbers by name: bytes of the grammar, limits, refusal numbers, kinds of records; and document 02's whitespace, units
// and profiles. Constants only; the definitions of `rules` have the same names for theirs (Ascii, Spaces, Sizes, Refusals, Kinds,
// Micrometres), and so have those of `rules_profile` (Profile).
#![tactic(auto)]

pub mod bytes;
pub mod kinds;
pub mod letters;
pub mod limits;
pub mod profiles;
pub mod refusals;
pub mod spaces;
pub mod units;

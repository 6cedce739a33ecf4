// What a value comes to, and how it is measured: how far it is written, what its members come to, whether it is within its size.
#![tactic(auto)]

pub mod extents;
pub mod sizes;
pub mod values;

// Finished values: laid into the sheet or kept, an entry laid behind the trail, a value held against a lent sheet.
#![tactic(auto)]

pub mod compare;
pub mod entries;
pub mod values;

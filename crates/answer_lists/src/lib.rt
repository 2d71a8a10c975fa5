// Fixed lists of cases, read case by case, and how many of the cases differ from what the code gives.
#![tactic(auto)]

pub mod count;
pub mod lists;

// The list in a lent table: its rows in ascending order, and words moved and cleared.
#![tactic(auto)]

pub mod order;
pub mod tables;

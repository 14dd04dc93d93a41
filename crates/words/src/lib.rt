// The words of a line, and the kinds, numbers, duties, costs and lists that words write.
#![tactic(auto)]

pub mod cells;
pub mod cut;
pub mod items;
pub mod kinds;
pub mod lists;
pub mod numbers;

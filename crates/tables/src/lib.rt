// Tables of costs, and the steps that lower every roster alike.
#![tactic(auto)]

pub mod cells;
pub mod rosters;
pub mod steps;
pub mod table;
pub mod values;

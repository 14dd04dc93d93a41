// Cost kinds: the interface, three kinds, the widening by forbidden, rows of costs, and the rest gauge.
#![tactic(auto)]

pub mod bytes;
pub mod class;
pub mod composition;
pub mod gauge;
pub mod kind;
pub mod show;
pub mod total;
pub mod values;
pub mod widened;
pub mod worst;

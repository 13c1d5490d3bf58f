// The pending lists, judged: charges and room; and whether the lists are as a consistent state has them.
#![tactic(auto)]

pub mod line;
pub mod room;

// Over any rule of what a piece is: the records in lent slot columns, and the path by the start column. Every function here
// asks for tested input, as slots that are there; the crates above that have a rule test it.
#![tactic(auto)]

pub mod path;
pub mod slots;

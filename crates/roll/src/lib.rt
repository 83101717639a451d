// The roll of a district: its numbers with their marks, and their nodes in the cells that the caller made. And why a call to
// a district is refused.
// Relies on the nodes, and on the district's definitions, which its functions are proved against.
#![tactic(auto)]

mod entering;
pub mod fault;
mod finding;
mod mark;
pub mod roll;

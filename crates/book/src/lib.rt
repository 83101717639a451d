// The book of a district, and what it makes of an opening, a step and a withdrawal.
// Relies on what a node answers, and on the district's definitions, which it is proved against.
#![tactic(auto)]

pub mod book;

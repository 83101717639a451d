// A drainage district: a roll of numbers with their nodes, and a book of everything that came in and left.
// Relies on the roll and the book, and on the district's definitions, which its calls are proved against.
#![tactic(auto)]

pub mod calls;
pub mod district;

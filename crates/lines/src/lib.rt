// A text of bytes read line by line: a reader hands out the lines in order, each with its number.
// The byte 10 ends a line; after the last line it may be missing. Relies on std alone.
#![tactic(auto)]

pub mod reader;
pub mod reading;

// The words of a sheet's line: its first byte, and then numbers, each after one space. They are handed out as parts of the
// sheet, with their places. Relies on the lines of a text and on decimal numbers.
#![tactic(auto)]

pub mod number;
pub mod reading;
pub mod words;

// The lines of a run sheet as commands: which line is which command, and the numbers that it has. Relies on the words of a line,
// and on the areas, soil, concentrations and forcing that the numbers are.
#![tactic(auto)]

pub mod command;
pub mod kind;
mod parts;
pub mod reading;

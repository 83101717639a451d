// The ground of a node, and what one step does to it: infiltration, depression storage, transpiration, percolation
// and sinking. Relies on the quantities.
#![tactic(auto)]

pub mod forcing;
pub mod ground;
pub mod rules;
pub mod soil;
pub mod step;
#[cfg(test)]
mod tests;

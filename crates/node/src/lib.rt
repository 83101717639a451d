// A node: one checked card, its ground, and six reservoirs of any makes. One step happens whole or not at all.
// Relies on the card, the ground and the six places.
#![tactic(auto)]

pub mod answer;
pub mod fault;
pub mod hard;
pub mod node;
pub mod plan;
pub mod step;

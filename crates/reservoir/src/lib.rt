// Reservoirs to the centilitre: the interface with its meaning, and the makes linear, lag and series.
// Relies on the quantities.
#![tactic(auto)]

pub mod fault;
pub mod interface;
pub mod lag;
pub mod linear;
pub mod series;

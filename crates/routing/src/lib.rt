// Routing a storm: a reservoir with its gauge, the laws of whole runs, and three reservoirs side by side.
// Relies on the quantities and on the interface of reservoirs.
#![tactic(auto)]

pub mod gauged;
pub mod side_by_side;
pub mod total;

// The six reservoirs of a drainage node, one in each place, of any six makes: asked, filled and emptied together.
// Relies on the reservoirs and the quantities.
#![tactic(auto)]

pub mod fault;
pub mod interface;
pub mod makes;
pub mod place;
pub mod reservoirs;
#[cfg(test)]
mod tests;
pub mod volumes;

// The engine's quantities, each a type of its own: depths, areas and volumes of water, concentrations
// and loads, and the accounts that water and mass are summed in. Relies on std alone.
#![tactic(auto)]

pub mod account;
pub mod load;
pub mod mass;
pub mod water;

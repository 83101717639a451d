// The card of a drainage node: its areas, its soil and the concentrations of its flows, their checking, and the
// nutrient loads of the flows. Relies on the quantities, on the ground's soil, and on how the reservoirs tell a refusal.
#![tactic(auto)]

pub mod areas;
pub mod card;
pub mod concentrations;
pub mod fault;
pub mod loads;
#[cfg(test)]
mod tests;

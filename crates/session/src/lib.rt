// A session: a run sheet's commands, one after the other, on a district. Cards are made line by line; a refused line drops
// the half-made card. Generic over how a program makes its reservoirs.
#![tactic(auto)]

pub mod entry;
pub mod equipment;
pub mod fault;
pub mod running;
pub mod stage;

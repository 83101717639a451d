// The equipment of the programs that run sheets: one choice of makes for the six places of every node.
#![tactic(auto)]

pub mod ram;

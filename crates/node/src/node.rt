// The node itself. Its parts carry their limits: a checked card's areas and concentrations, and the ground.

use card::areas::CheckedAreas;
use card::concentrations::CheckedConcentrations;
use ground::ground::Ground;

#[derive(Drop)]
pub struct Node<P> {
    pub(crate) areas: CheckedAreas,
    pub(crate) concentrations: CheckedConcentrations,
    pub(crate) ground: Ground,
    pub(crate) reservoirs: P,
}

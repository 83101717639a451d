// The commands of a run sheet.

use card::areas::Areas;
use card::concentrations::Concentrations;
use ground::forcing::Forcing;
use ground::soil::Soil;

// The places of a node's reservoirs: open, paved, sewer, surface, quick and slow, in this order.
pub const PLACES: usize = 6;

// The two fractions of a linear reservoir, in 65,536ths: of its storage that a step leaves, and of what a step takes that is
// still there at its end.
#[derive(Clone, Copy)]
pub struct Fractions {
    pub recession: u32,
    pub retention: u32,
}

#[derive(Clone, Copy)]
pub enum Command {
    // `o`: begins a card with the number of its node and the areas
    Begin(u32, Areas),
    // `g`: the card's soil
    Ground(Soil),
    // `k`: makes the reservoirs of the six places
    Equip([Fractions; PLACES]),
    // `c`: ends the card with its concentrations, and opens the node
    Open(Concentrations),
    // `s`: steps a node
    Step(u32, Forcing),
    // `w`: withdraws a node
    Withdraw(u32),
    // `r`: reads the book
    Read,
}

// A line that is too long, or has none of the forms.
#[derive(Clone, Copy, PartialEq, Eq, Debug)]
pub struct Malformed {}

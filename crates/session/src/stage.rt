// How far a card is made, and the district that it is for: a session, which a sheet runs in.

use card::areas::Areas;
use district::district::District;
use ground::soil::Soil;

// After `o` come `g`, `k` and `c`, and `c` ends the card.
#[derive(Drop)]
pub enum Stage<P> {
    // no card is half made
    Idle,
    HasAreas(u32, Areas),
    HasSoil(u32, Areas, Soil),
    HasReservoirs(u32, Areas, Soil, P),
}

#[derive(Drop)]
pub struct Session<P> {
    pub(crate) district: District<P>,
    pub(crate) stage: Stage<P>,
}

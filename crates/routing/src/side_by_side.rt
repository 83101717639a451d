// Three reservoirs of any makes, offered the same volumes: all take a volume or none does.

ghost use Rattle.reservoir.specs.Faults.{Full};
ghost use Rattle.routing.specs.SideBySide.{AllPass, FirstFull, gauges};
ghost use Rattle.std.specs.Prelude.{◌≡◌, Ok, Err, MatchResult};

use crate::gauged::{Gauged, Passage};
use quantity::water::Centilitres;
use reservoir::fault::Fault;
use reservoir::interface::Reservoir;

#[derive(Drop)]
pub struct SideBySide<F, S, T> {
    pub first: Gauged<F>,
    pub second: Gauged<S>,
    pub third: Gauged<T>,
}

#[derive(Clone, Copy, PartialEq, Eq, Debug)]
pub enum Position {
    First,
    Second,
    Third,
}

// One step of the three: the passage of the volume through each.
#[derive(Clone, Copy, PartialEq, Eq, Debug)]
pub struct Step {
    pub first: Passage,
    pub second: Passage,
    pub third: Passage,
}

// Why a volume was not taken, and the first of the three that has no room for it.
#[derive(Clone, Copy, PartialEq, Eq, Debug)]
pub struct NoRoom {
    pub position: Position,
    pub fault: Fault,
}

impl<F: Reservoir, S: Reservoir, T: Reservoir> SideBySide<F, S, T> {
    // Offers a volume to each in turn; where all have room, each takes it, else none does.
    pub fn step(&mut self, volume: Centilitres) -> Result<Step, NoRoom>
        ensures { let all = gauges F.settings F.cells S.settings S.cells T.settings T.cells in MatchResult result
            (λ step. AllPass F.make S.make T.make (all self.old) volume.0 step (all self.new))
            (λ refused. Full refused.fault × (FirstFull refused.position (all self.old) volume.0 × (self.new ≡ self.old))) }
    {
        at(self.first.reservoir.offer(volume), Position::First)?;
        at(self.second.reservoir.offer(volume), Position::Second)?;
        at(self.third.reservoir.offer(volume), Position::Third)?;
        let first = at(self.first.take(volume), Position::First)?;
        let second = at(self.second.take(volume), Position::Second)?;
        let third = at(self.third.take(volume), Position::Third)?;
        Ok(Step {
            first,
            second,
            third,
        })
    }
}

// Puts on a fault the position at which it was met. The six places have their own such function, which says why.
fn at<X>(res: Result<X, Fault>, position: Position) -> Result<X, NoRoom>
    ensures { MatchResult res (λ x. result ≡ Ok x) (λ fault. result ≡ Err (record { position = position; fault = fault })) }
{
    res.map_err(|fault| NoRoom { position, fault })
}

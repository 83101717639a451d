// A reservoir of any make with its gauge: it takes as the reservoir does, and counts.

ghost use Rattle.std.specs.Prelude.{◌≡◌, ◌+◌, ◌≤◌};
ghost use Rattle.reservoir.specs.Cells.{emptied};
ghost use Rattle.routing.specs.Gauges.{Balanced, Routes, gauge, largest};
ghost use Rattle.routing.specs.Pairs.{MoreGivesNoLess};
ghost use Rattle.routing.specs.Runs.{RunsBalance};

use crate::total::Total;
use quantity::account::Account;
use quantity::water::Centilitres;
use reservoir::fault::Fault;
use reservoir::interface::Reservoir;

// A reservoir, and everything that it has taken and given since it was empty.
#[derive(Drop)]
pub struct Gauged<R> {
    pub reservoir: R,
    pub taken: Total,
    pub given: Total,
}

// A volume's passage through a reservoir: what it gives in the step, and holds after it.
#[derive(Clone, Copy, PartialEq, Eq, Debug)]
pub struct Passage {
    pub gives: Centilitres,
    pub holds: Centilitres,
}

impl<R: Reservoir> Gauged<R> {
    // Empties a reservoir and sets its gauge to zero. Of its make the laws of whole runs hold.
    pub fn new(reservoir: R) -> Self
        ensures zero { gauge R.settings R.cells result ≡ record { settings = R.settings reservoir; cells = emptied (R.cells reservoir); taken = 0; given = 0 } }
        ensures balanced { Balanced (gauge R.settings R.cells result) }
        ensures runs_balance { RunsBalance R.make }
        ensures more_gives_no_less { MoreGivesNoLess R.make }
    {
        let mut gauged = Gauged {
            reservoir,
            taken: Total::zero(),
            given: Total::zero(),
        };
        gauged.reservoir.empty();
        gauged
    }

    // Takes a volume and counts it. While the total is no larger than a total can be, the balance stands.
    pub fn take(&mut self, volume: Centilitres) -> Result<Passage, Fault>
        ensures answer { Routes R.make (gauge R.settings R.cells self.old) volume.0 result (gauge R.settings R.cells self.new) }
        ensures balanced { Balanced (gauge R.settings R.cells self.old) → self.old.taken.0 + volume.0 ≤ largest → Balanced (gauge R.settings R.cells self.new) }
    {
        let gives = self.reservoir.take(volume)?;
        self.taken = self.taken.plus(volume);
        self.given = self.given.plus(gives);
        Ok(Passage {
            gives,
            holds: self.reservoir.content(),
        })
    }
}

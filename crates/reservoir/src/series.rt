// Two reservoirs of any makes in series: what the first gives, the second takes in the same step.
#![tactic(auto, using(crate::specs::Lists::of_joined))]

ghost use Rattle.reservoir.specs.Cells.{emptied};
ghost use Rattle.reservoir.specs.Makes.{series};
ghost use Rattle.reservoir.specs.Meaning.{joined};
ghost use Rattle.std.specs.Prelude.{◌≡◌, ◌++◌};
ghost use Rattle.reservoir.specs.Joining.{series_fits, series_meaning};

use crate::fault::Fault;
use crate::interface::Reservoir;
use quantity::account::Account;
use quantity::water::Centilitres;

#[derive(Drop)]
pub struct Series<F, S> {
    first: F,
    second: S,
}

impl<F: Reservoir, S: Reservoir> Series<F, S> {
    // Joins two reservoirs and empties both.
    pub fn join(mut first: F, mut second: S) -> Self
        ensures same_settings { (F.settings result.first ≡ F.settings first) × (S.settings result.second ≡ S.settings second) }
        ensures all_zero { (F.cells result.first ≡ emptied (F.cells first)) × (S.cells result.second ≡ emptied (S.cells second)) }
    {
        first.empty();
        second.empty();
        Series { first, second }
    }
}

impl<F: Reservoir, S: Reservoir> Reservoir for Series<F, S> {
    ghost make = { series F.make S.make };

    ghost settings = { λ r. joined (F.settings r.first) (S.settings r.second) };

    ghost cells = { λ r. F.cells r.first ++ S.cells r.second };

    ghost meaning = { series_meaning F.meaning S.meaning };

    ghost fits = { λ r. series_fits F.make S.make _ _ (F.cells r.first) (S.cells r.second)
        (F.fits r.first) (S.fits r.second) };

    fn content(&self) -> Centilitres {
        self.first.content().plus(self.second.content())
    }

    fn take(&mut self, volume: Centilitres) -> Result<Centilitres, Fault> {
        self.offer(volume)?;
        let between = self.first.take(volume)?;
        let given = self.second.take(between)?;
        Ok(given)
    }

    fn empty(&mut self) {
        self.first.empty();
        self.second.empty();
    }
}

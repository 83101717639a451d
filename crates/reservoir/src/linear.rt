// The linear reservoir: of its storage and of what it takes it keeps two fixed fractions and gives the rest.

ghost use Rattle.std.specs.Prelude.{◌≡◌, ◌≤◌, [], ◌∷◌};
ghost use Rattle.reservoir.specs.Answers.{Makes};
ghost use Rattle.reservoir.specs.Cells.{capacity};
ghost use Rattle.reservoir.specs.Makes.{linear, fractions, kept};
ghost use Rattle.reservoir.specs.Meaning.{Accepts};
ghost use Rattle.reservoir.specs.Fractions.{linear_fits, linear_meaning};

use crate::fault::Fault;
use crate::interface::Reservoir;
use quantity::water::Centilitres;

// The fractions are in 65,536ths.
const ONE: u64 = 65_536;

#[derive(Drop)]
pub struct Linear {
    // a: the fraction of the storage that a step leaves
    recession: u64,
    // b: the fraction of what a step takes that is still there at its end
    retention: u64,
    storage: Centilitres,
    ghost fractions: { (recession ≤ retention) × (retention ≤ 65535) },
    ghost within: { storage.0 ≤ capacity },
}

impl Linear {
    // An empty linear reservoir, where a ≤ b ≤ 65,535. The fractions are two parameters and no struct: callers have structs
    // of their own, of other widths (a sheet's numbers, a storm's settings).
    pub fn new(recession: u64, retention: u64) -> Result<Linear, Fault>
        ensures { Makes linear (λ l. fractions l.recession l.retention) (λ l. l.storage.0 ∷ []) (fractions recession retention) result }
    {
        if recession > retention || retention >= ONE {
            return Err(Fault::InvalidSettings);
        }
        Ok(Linear {
            recession,
            retention,
            storage: Centilitres(0),
        })
    }

    // What is left of the storage and of a volume at the end of a step.
    fn kept(&self, volume: Centilitres) -> u64
        requires { Accepts (self.now.storage.0 ∷ []) volume.0 }
        ensures { result ≡ kept self.now.recession self.now.retention self.now.storage.0 volume.0 }
    {
        (self.recession * self.storage.0 + self.retention * volume.0) / ONE
    }
}

impl Reservoir for Linear {
    ghost make = { linear };

    ghost settings = { λ r. fractions r.recession r.retention };

    ghost cells = { λ r. r.storage.0 ∷ [] };

    ghost meaning = { linear_meaning };

    ghost fits = { λ r. linear_fits r.recession r.retention r.storage.0 r.fractions };

    fn content(&self) -> Centilitres {
        self.storage
    }

    fn take(&mut self, volume: Centilitres) -> Result<Centilitres, Fault> {
        self.offer(volume)?;
        // on the insides: an operator would have to ask for a bound, and by a rule of the project no public call does
        let all = self.storage.0 + volume.0;
        let kept = self.kept(volume);
        self.storage = Centilitres(kept);
        Ok(Centilitres(all - kept))
    }

    fn empty(&mut self) {
        self.storage = Centilitres(0);
    }
}

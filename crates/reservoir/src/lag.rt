// The lag: what it takes it gives n steps later.
#![tactic(auto, using(crate::specs::Delay::of_used))]

ghost use Rattle.std.specs.Prelude.{◌≡◌, ◌≤◌, [], ◌∷◌, ◌++◌, length, take, drop, replicate, slice_index};
ghost use Rattle.reservoir.specs.Answers.{Makes};
ghost use Rattle.reservoir.specs.Cells.{capacity, held, volumes};
ghost use Rattle.reservoir.specs.Makes.{lag, steps};
ghost use Rattle.reservoir.specs.Meaning.{Accepts};
ghost use Rattle.reservoir.specs.Delay.{lag_fits, lag_meaning};
ghost use Rattle.reservoir.specs.declared.lag.TheConstants.{MOST};

use crate::fault::Fault;
use crate::interface::Reservoir;
use quantity::water::Centilitres;

// The most cells that a lag may have.
const MOST: usize = 12;

#[derive(Drop)]
pub struct Lag {
    // Oldest first; the first n are in use. An array and a length, by a rule of the project: no heap.
    cells: [Centilitres; MOST],
    n: usize,
    ghost twelve: { length cells ≡ MOST },
    ghost used: { lag.Valid (steps n) },
    ghost within: { held (volumes (take n cells)) ≤ capacity },
}

impl Lag {
    ghost use Rattle.reservoir.specs.InUse.{in_use};

    // An empty lag of n steps, for n of 1 to 12.
    pub fn new(n: usize) -> Result<Lag, Fault>
        ensures { Makes lag (λ l. steps l.n) in_use (steps n) result }
    {
        if !(1..=MOST).contains(&n) {
            return Err(Fault::InvalidSettings);
        }
        Ok(Lag::cleared(n))
    }

    fn cleared(n: usize) -> Lag
        requires { lag.Valid (steps n) }
        ensures { (result.n ≡ n) × (in_use result ≡ replicate n 0) }
    {
        Lag {
            cells: [Centilitres(0); MOST],
            n,
        }
    }

    // Gives the oldest, moves the others on, and stores a volume as the newest.
    fn shift(&mut self, volume: Centilitres) -> Centilitres
        requires { Accepts (in_use self.old) volume.0 }
        ensures same { self.new.n ≡ self.old.n }
        ensures gives { result.0 ≡ slice_index (in_use self.old) 0 }
        ensures leaves { in_use self.new ≡ drop 1 (in_use self.old) ++ volume.0 ∷ [] }
    {
        let oldest = self.cells[0];
        self.cells.rotate_left(1);
        self.cells[self.n - 1] = volume;
        oldest
    }
}

impl Reservoir for Lag {
    ghost use Rattle.reservoir.specs.InUse.{in_use};

    ghost make = { lag };

    ghost settings = { λ r. steps r.n };

    ghost cells = { in_use };

    ghost meaning = { lag_meaning };

    ghost fits = { λ r. lag_fits r.n r.cells r.twelve r.used };

    fn content(&self) -> Centilitres {
        Centilitres(self.cells[..self.n].iter().map(|cell| cell.0).sum())
    }

    fn take(&mut self, volume: Centilitres) -> Result<Centilitres, Fault> {
        self.offer(volume)?;
        Ok(self.shift(volume))
    }

    fn empty(&mut self) {
        *self = Lag::cleared(self.n);
    }
}

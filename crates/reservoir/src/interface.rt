// The interface of a reservoir. Its meaning is the laws and contracts below: whoever holds a reservoir of any
// make knows these and no more.

ghost use Rattle.std.specs.Prelude.{◌≡◌, ℕ, ◌-◌, ◌^◌, min, List};
ghost use Rattle.reservoir.specs.Answers.{Offers, Takes};
ghost use Rattle.reservoir.specs.Cells.{held, emptied};
ghost use Rattle.reservoir.specs.Meaning.{Settings, Make, Meaning, Fits};

use crate::fault::Fault;
use quantity::account::Account;
use quantity::water::Centilitres;

// The largest volume that a reservoir may hold.
pub const CAPACITY: Centilitres = Centilitres(100_000_000_000_000);

// No make has a model: the laws at the end speak of every value of `Self`, and the value of a model forgets its invariant.
pub trait Reservoir: Sized + Drop {
    // what the make does, and the settings and cells of one reservoir
    ghost make: { Make };

    ghost settings: { Self → Settings };

    ghost cells: { Self → List ℕ };

    // What it holds; a sum too large for a volume is the largest volume.
    fn content(&self) -> Centilitres
        ensures { result.0 ≡ min (held (cells self.now)) (2 ^ 64 - 1) };

    // Whether it has room for a volume. Nothing is taken.
    fn offer(&self, volume: Centilitres) -> Result<(), Fault>
        ensures { Offers (cells self.now) volume.0 result }
    {
        if self.content().plus(volume) > CAPACITY {
            return Err(Fault::OverCapacity);
        }
        Ok(())
    }

    // Takes a volume and answers what it gives.
    fn take(&mut self, volume: Centilitres) -> Result<Centilitres, Fault>
        ensures same_settings { settings self.new ≡ settings self.old }
        ensures answer { Takes make (settings self.old) (cells self.old) volume.0 result (cells self.new) };

    // Empties every cell.
    fn empty(&mut self)
        ensures same_settings { settings self.new ≡ settings self.old }
        ensures all_zero { cells self.new ≡ emptied (cells self.old) };

    ghost meaning: { Meaning make };

    ghost fits: { (r : Self) → Fits make (settings r) (cells r) };
}

// A volume of water for each place.

ghost use Rattle.std.specs.Prelude.{◌≡◌, ◌-◌, ◌^◌, min};
ghost use Rattle.places.specs.Laws.{total};
ghost use Rattle.places.specs.Numbers.{in_order, listed};

use quantity::account::Account;
use quantity::water::Centilitres;

#[derive(Clone, Copy, PartialEq, Eq, Debug)]
pub struct Volumes {
    pub open: Centilitres,
    pub paved: Centilitres,
    pub sewer: Centilitres,
    pub surface: Centilitres,
    pub quick: Centilitres,
    pub slow: Centilitres,
}

impl Volumes {
    // In the order of the places.
    pub fn listed(&self) -> [Centilitres; 6]
        ensures { result ≡ in_order self.now }
    {
        [
            self.open,
            self.paved,
            self.sewer,
            self.surface,
            self.quick,
            self.slow,
        ]
    }

    // The sum over all places; one too large for a volume is the largest volume.
    pub fn total(&self) -> Centilitres
        ensures { result.0 ≡ min (total (listed self.now)) (2 ^ 64 - 1) }
    {
        // a fold over `listed` was tried: its sum stayed open
        let hard = self.open.plus(self.paved).plus(self.sewer);
        hard.plus(self.surface).plus(self.quick).plus(self.slow)
    }
}

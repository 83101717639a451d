// The interface of six reservoirs. Its meaning is the laws and contracts below, over lists with an entry for each
// place: whoever holds six reservoirs of any makes knows these and no more.

ghost use Rattle.places.specs.Answers.{Offers, Takes};
ghost use Rattle.places.specs.Numbers.{listed};
ghost use Rattle.places.specs.States.{State, Meanings, EachFits, each_content, each_emptied};
ghost use Rattle.reservoir.specs.Meaning.{Make};
ghost use Rattle.std.specs.Prelude.{◌≡◌, List, length};

use crate::fault::PlacedFault;
use crate::volumes::Volumes;

pub trait Places: Sized + Drop {
    // what the makes do, and the settings and cells of each reservoir, in the order of the places
    ghost makes: { List Make };

    ghost reservoirs: { Self → List State };

    // What each place holds; a sum too large for a volume is the largest volume.
    fn contents(&self) -> Volumes
        ensures { listed result ≡ each_content (reservoirs self.now) };

    // Whether each place has room for its volume. Nothing is taken.
    fn offer(&self, volumes: &Volumes) -> Result<(), PlacedFault>
        ensures { Offers (reservoirs self.now) (listed volumes.now) result };

    // Takes the volume of each place and answers what each gives.
    fn take(&mut self, volumes: &Volumes) -> Result<Volumes, PlacedFault>
        ensures { Takes makes (reservoirs self.old) (listed volumes.now) result (reservoirs self.new) };

    // Empties every cell of all six.
    fn empty(&mut self)
        ensures { reservoirs self.new ≡ each_emptied (reservoirs self.old) };

    ghost six: { length makes ≡ 6 };

    ghost meanings: { Meanings makes };

    ghost fits: { (p : Self) → EachFits makes (reservoirs p) };
}

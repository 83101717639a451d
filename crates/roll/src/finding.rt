// Finding numbers, cells and nodes in a roll. Nothing is changed.

ghost use Rattle.std.specs.Prelude.{◌≡◌, ◌-◌, ◌^◌, min, not, is_some, take, position, MatchResult};
ghost use Rattle.roll.specs.Rolls.{Kept, Marked, NotOpen, NotVacant, OpenIn, Openable, Vacant, rolled, standing_of};
ghost use Rattle.roll.specs.declared.fault.DistrictFault.TheVariants.{NumberOutside};
ghost use Rattle.model.specs.State.{all_stored, open_with, outside, standing, stored};
ghost use Rattle.node.specs.Answers.{store};

use crate::fault::DistrictFault;
use crate::mark::Mark;
use crate::roll::{MOST_CELLS, NUMBERS, Roll};
use node::node::Node;
use places::interface::Places;
use quantity::account::Account;
use quantity::water::Centilitres;

impl<P: Places> Roll<P> {
    // The mark of a number.
    fn mark(&self, number: u32) -> Result<Mark, DistrictFault>
        ensures { MatchResult result
            (λ mark. Marked self.now.marks number mark)
            (λ fault. (fault ≡ NumberOutside) × (standing (rolled P.Places.reservoirs self.now).roll number ≡ outside)) }
    {
        let place = number as usize;
        if place < 1 || place > NUMBERS {
            return Err(DistrictFault::NumberOutside);
        }
        Ok(self.marks[place - 1])
    }

    // The cell of an open number.
    pub(crate) fn find(&self, number: u32) -> Result<usize, DistrictFault>
        ensures { MatchResult result
            (λ cell. OpenIn self.now number cell)
            (λ fault. NotOpen (standing (rolled P.Places.reservoirs self.now).roll number) fault) }
    {
        match self.mark(number)? {
            Mark::New => Err(DistrictFault::NumberNew),
            Mark::Open(cell) => Ok(cell),
            Mark::Withdrawn => Err(DistrictFault::NumberWithdrawn),
        }
    }

    // The node of an open number.
    pub fn node(&self, number: u32) -> Result<&Node<P>, DistrictFault>
        ensures { MatchResult result
            (λ node. standing (rolled P.Places.reservoirs self.now).roll number ≡ open_with (store P.Places.reservoirs node.now))
            (λ fault. NotOpen (standing (rolled P.Places.reservoirs self.now).roll number) fault) }
    {
        let cell = self.find(number)?;
        match &self.cells[cell] {
            Some(node) => Ok(node),
            // the cell of an open number has its node
            None => unreachable(),
        }
    }

    // The first unused cell.
    fn unused_cell(&self) -> Option<usize>
        ensures { result ≡ position (λ cell. not (is_some cell)) (take 64 self.now.cells.items) }
    {
        self.cells.iter().take(MOST_CELLS).position(Option::is_none)
    }

    // The cell that a new number can be opened in.
    pub fn vacancy(&self, number: u32) -> Result<usize, DistrictFault>
        ensures { MatchResult result
            (λ cell. Vacant self.now number cell × Openable (rolled P.Places.reservoirs self.now) number)
            (λ fault. NotVacant (rolled P.Places.reservoirs self.now) (standing (rolled P.Places.reservoirs self.now).roll number) fault) }
    {
        let mark = self.mark(number)?;
        match mark {
            Mark::New => self.unused_cell().ok_or(DistrictFault::NoUnusedCell),
            Mark::Open(_) => Err(DistrictFault::NumberOpen),
            Mark::Withdrawn => Err(DistrictFault::NumberWithdrawn),
        }
    }

    // What all open nodes hold, asked of them; a sum too large for a volume is the largest volume. The second clause says what
    // the links of every roll come to.
    pub fn storage(&self) -> Centilitres
        ensures sum { result.0 ≡ min (all_stored (rolled P.Places.reservoirs self.now).roll) (2 ^ 64 - 1) }
        ensures kept { Kept (rolled P.Places.reservoirs self.now) }
    {
        self.marks.iter().fold(Centilitres::zero(), |sum, mark| {
            sum.plus(self.stored_under(*mark))
        })
    }

    // What is held under a mark.
    fn stored_under(&self, mark: Mark) -> Centilitres
        ensures { result.0 ≡ min (stored (standing_of P.Places.reservoirs self.now.cells.items mark)) (2 ^ 64 - 1) }
    {
        let Mark::Open(cell) = mark else {
            return Centilitres::zero();
        };
        match self.cells.get(cell) {
            Some(Some(node)) => node.storage(),
            _ => Centilitres::zero(),
        }
    }
}

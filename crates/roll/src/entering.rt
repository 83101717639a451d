// Changing a roll: making it, entering a node under a number, stepping it and withdrawing it.

ghost use Rattle.roll.specs.Rolls.{NotOpen, NotVacant, Openable, StepsAt, rolled, with_standing};
ghost use Rattle.model.specs.State.{new, number_count, open_with, standing, withdrawn};
ghost use Rattle.node.specs.Answers.{store};
ghost use Rattle.std.specs.Prelude.{◌≡◌, replicate, vec_len, MatchResult};

use crate::fault::DistrictFault;
use crate::mark::Mark;
use crate::roll::{NUMBERS, Roll};
use ground::forcing::Forcing;
use node::answer::Yield;
use node::node::Node;
use places::interface::Places;

impl<P: Places> Roll<P> {
    // A roll of new numbers. Whatever the cells had is let go.
    pub fn new(mut cells: Vec<Option<Node<P>>>) -> Self
        ensures { rolled P.Places.reservoirs result ≡ record { roll = replicate number_count new; cells = vec_len cells } }
    {
        for cell in cells.iter_mut() {
            *cell = None;
        }
        Roll {
            marks: [Mark::New; NUMBERS],
            cells,
        }
    }

    // Enters a node under a number, where it is new and a cell is left. A refused one changes nothing.
    pub fn admit(&mut self, number: u32, node: Node<P>) -> Result<(), DistrictFault>
        ensures { MatchResult result
            (λ _. Openable (rolled P.Places.reservoirs self.old) number
            × (rolled P.Places.reservoirs self.new ≡ with_standing (rolled P.Places.reservoirs self.old) number (open_with (store P.Places.reservoirs node))))
            (λ fault. NotVacant (rolled P.Places.reservoirs self.old) (standing (rolled P.Places.reservoirs self.old).roll number) fault
            × (rolled P.Places.reservoirs self.new ≡ rolled P.Places.reservoirs self.old)) }
    {
        let cell = self.vacancy(number)?;
        self.cells[cell] = Some(node);
        self.marks[number as usize - 1] = Mark::Open(cell);
        Ok(())
    }

    // One step of the node of an open number, in its cell.
    pub fn step(&mut self, number: u32, forcing: Forcing) -> Result<Yield, DistrictFault>
        ensures { StepsAt P.Places.makes (standing (rolled P.Places.reservoirs self.old).roll number)
            (rolled P.Places.reservoirs self.old) number forcing result (rolled P.Places.reservoirs self.new) }
    {
        let cell = self.find(number)?;
        match &mut self.cells[cell] {
            Some(node) => Ok(node.step(forcing)?),
            // the cell of an open number has its node
            None => unreachable(),
        }
    }

    // Takes the node of an open number out of its cell, and withdraws the number.
    pub fn withdraw(&mut self, number: u32) -> Result<Node<P>, DistrictFault>
        ensures { MatchResult result
            (λ node. (standing (rolled P.Places.reservoirs self.old).roll number ≡ open_with (store P.Places.reservoirs node))
            × (rolled P.Places.reservoirs self.new ≡ with_standing (rolled P.Places.reservoirs self.old) number withdrawn))
            (λ fault. NotOpen (standing (rolled P.Places.reservoirs self.old).roll number) fault
            × (rolled P.Places.reservoirs self.new ≡ rolled P.Places.reservoirs self.old)) }
    {
        let cell = self.find(number)?;
        match self.cells[cell].take() {
            Some(node) => {
                self.marks[number as usize - 1] = Mark::Withdrawn;
                Ok(node)
            }
            // the cell of an open number has its node
            None => unreachable(),
        }
    }
}

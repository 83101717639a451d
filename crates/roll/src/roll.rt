// The roll of a district: the mark of each number, and the node cells that its caller made.

ghost use Rattle.roll.specs.Links.{Linked};

use crate::mark::Mark;
use node::node::Node;

// The numbers are 1 to 256; the mark of a number stands one place lower.
pub(crate) const NUMBERS: usize = 256;

// Only the first cells are used where there are more.
pub(crate) const MOST_CELLS: usize = 64;

// Marks in an array and nodes in their caller's cells, by a rule of the project: a district allocates nothing. The ghost fact
// says how marks and cells go together.
#[derive(Drop)]
pub struct Roll<P> {
    pub(crate) marks: [Mark; NUMBERS],
    pub(crate) cells: Vec<Option<Node<P>>>,
    ghost linked: { Linked marks cells.items },
}

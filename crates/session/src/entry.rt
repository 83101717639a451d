// What a line of a sheet has printed, if it is accepted and prints anything.

use district::district::Reading;
use node::answer::Flows;
use quantity::water::Centilitres;

#[derive(Clone, Copy)]
pub enum Entry {
    // a number, and the volume that its node brought in
    Opened(u32, Centilitres),
    // a number, and the flows of its node in a step
    Stepped(u32, Flows),
    // a number, and the volume that its node ceded
    Withdrawn(u32, Centilitres),
    Balance(Reading),
}

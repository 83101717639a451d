// The calls of the example, in their order.

use crate::nodes::Site;

#[derive(Clone, Copy)]
pub enum Call {
    Open(u32, Site),
    // Number, rain, evaporation and seepage in points. Plain numbers: a literal of a forcing for each step would be no
    // plainer.
    Step(u32, u32, u32, i32),
    Withdraw(u32),
    Look(u32),
    Read,
    // a reading in words
    Balance,
}

pub const CALLS: [Call; 38] = [
    Call::Read,
    Call::Open(1, Site::Yard),
    Call::Open(2, Site::Town),
    Call::Open(256, Site::Meadow),
    Call::Read,
    // a shower over all three, and a day later seepage of its own in each
    Call::Step(1, 3_000, 400, 0),
    Call::Step(2, 3_470, 20, 15),
    Call::Step(256, 4_200, 30, 0),
    Call::Step(1, 0, 0, -2_000),
    Call::Step(2, 0, 310, 15),
    Call::Step(256, 0, 450, -300),
    Call::Look(256),
    Call::Read,
    // a cloudburst that the yard does not get
    Call::Step(2, 5_000, 0, -40),
    Call::Step(256, 9_000, 0, 12),
    Call::Step(2, 810, 95, -400),
    Call::Step(256, 0, 520, -10_000),
    Call::Read,
    // the town goes to the neighbour, with all that it holds
    Call::Look(2),
    Call::Withdraw(2),
    Call::Read,
    // refused: withdrawn, new, open already, no such number, more seepage than a step may have
    Call::Step(2, 100, 0, 0),
    Call::Look(2),
    Call::Withdraw(2),
    Call::Open(2, Site::Town),
    Call::Step(3, 100, 0, 0),
    Call::Look(3),
    Call::Open(1, Site::Yard),
    Call::Open(257, Site::Yard),
    Call::Step(1, 0, 0, -10_001),
    Call::Read,
    // two cells are unused, one of them the town's; then none
    Call::Open(3, Site::Yard),
    Call::Open(4, Site::Meadow),
    Call::Open(5, Site::Yard),
    Call::Step(3, 3_000, 400, 0),
    Call::Step(256, 700, 33, 7),
    Call::Read,
    Call::Balance,
];

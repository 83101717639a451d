// The mark of a number: it is new, open in a cell, or withdrawn.

#[derive(Clone, Copy)]
pub(crate) enum Mark {
    New,
    // the cell that has its node
    Open(usize),
    Withdrawn,
}

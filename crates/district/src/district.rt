// The district itself: its roll and its book. And what reading it answers.

use book::book::Book;
use quantity::water::Centilitres;
use roll::roll::Roll;

#[derive(Drop)]
pub struct District<P> {
    pub(crate) roll: Roll<P>,
    pub(crate) book: Book,
}

// The book, and the storage of all open nodes.
#[derive(Clone, Copy)]
pub struct Reading {
    pub book: Book,
    pub storage: Centilitres,
}

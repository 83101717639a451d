// The words of a line and what they hand out; their functions stand in `reading`.

ghost use Rattle.std.specs.Prelude.{◌≡◌, ◌-◌, drop, length};

use lines::reader::Line;

// A word, a part of its sheet. Its place: the number of its line, and how many bytes of that line stand before it.
#[derive(Clone, Copy)]
pub struct Word<'a> {
    pub line: usize,
    pub column: usize,
    pub bytes: &'a [u8],
}

// A line, and its bytes that are not read yet.
#[derive(Drop)]
pub struct Words<'a> {
    pub(crate) line: Line<'a>,
    pub(crate) rest: &'a [u8],
    // the bytes that are not read yet are the end of the line
    ghost ends: { rest.now ≡ drop (length line.bytes.now - length rest.now) line.bytes.now },
}

// The reader and the lines that it hands out; its functions stand in `reading`. Relies on the definition of a text's lines.

ghost use Rattle.std.specs.Prelude.{◌≡◌, ◌≤◌, length, drop};
ghost use Rattle.lines.specs.Lines.{lines_of};

// A line of the text, a part of it, with its number. The first line has the number 1. The byte 10 that ends a line is not in it.
#[derive(Clone, Copy)]
pub struct Line<'a> {
    pub number: usize,
    pub bytes: &'a [u8],
}

// A text, the position up to which it is read, and the number of lines handed out: a position and no rest, by a rule of the
// project.
#[derive(Drop)]
pub struct Reader<'a> {
    pub(crate) text: &'a [u8],
    pub(crate) position: usize,
    pub(crate) count: usize,
    ghost within: { position ≤ length text.now },
    ghost counted: { count ≤ length (lines_of text.now) },
    // the lines from the position on are those of the text after the first `count`
    ghost placed: { lines_of (drop position text.now) ≡ drop count (lines_of text.now) },
}

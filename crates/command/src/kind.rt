// The kinds of lines, by the first byte.

ghost use Rattle.command.specs.Kinds.{OfKind};

use lines::reader::Line;
use words::words::Words;

// Each kind borrows the bytes behind the first, with their place.
#[derive(Drop)]
pub enum Kind<'a> {
    Empty,
    Remark(Words<'a>),
    Areas(Words<'a>),
    Soil(Words<'a>),
    Fractions(Words<'a>),
    Concentrations(Words<'a>),
    Step(Words<'a>),
    Withdrawal(Words<'a>),
    Reading(Words<'a>),
    // the first byte is none of these letters
    Other(Words<'a>),
}

impl<'a> Kind<'a> {
    // The kind of a line.
    pub fn of(line: Line<'a>) -> Kind<'a>
        ensures { OfKind line.entry.bytes.now result }
    {
        match Words::take_apart(line) {
            None => Kind::Empty,
            Some((first, words)) => match first as char {
                'o' => Kind::Areas(words),
                'g' => Kind::Soil(words),
                'k' => Kind::Fractions(words),
                'c' => Kind::Concentrations(words),
                's' => Kind::Step(words),
                'w' => Kind::Withdrawal(words),
                'r' => Kind::Reading(words),
                '#' => Kind::Remark(words),
                _ => Kind::Other(words),
            },
        }
    }
}

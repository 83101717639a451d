// Reading the words of a line. Relies on the numbers of words.

ghost use Rattle.decimal.specs.Reading.{SomeExactly};
ghost use Rattle.words.specs.Numbers.{Writes, WritesAll};
ghost use Rattle.words.specs.Readings.{NextNumber, NextWord, TakesApart, ahead};
ghost use Rattle.std.specs.Prelude.{◌≡◌, length, ◌==◌};

use crate::number::Numeral;
use crate::words::{Word, Words};
use lines::reader::Line;

impl<'a> Words<'a> {
    // The first byte of a line and the words behind it; none of an empty line.
    pub fn take_apart(line: Line<'a>) -> Option<(u8, Words<'a>)>
        ensures { TakesApart line.entry result }
    {
        match line.bytes {
            [] => None,
            [first, rest @ ..] => Some((*first, Words { line, rest })),
        }
    }

    // The next word, which stands after one space.
    pub fn next_word(&mut self) -> Option<Word<'a>>
        ensures { NextWord self.old result self.new }
    {
        let line = self.line;
        match self.rest {
            [b' ', more @ ..] => {
                let space = more.iter().position(|byte| *byte == b' ');
                let (bytes, rest) = more.split_at(space.unwrap_or(more.len()));
                *self = Words { line, rest };
                Some(Word {
                    line: line.number,
                    column: line.bytes.len() - more.len(),
                    bytes,
                })
            }
            _ => None,
        }
    }

    // The next word as a number.
    pub fn next_number<T: Numeral>(&mut self) -> Option<T>
        ensures { NextNumber (Writes T.form T.size) (ahead self.old) result (ahead self.new) }
    {
        T::of_word(self.next_word()?.bytes)
    }

    // Whether all bytes are read.
    pub fn is_done(&self) -> bool
        ensures { result ≡ (length (ahead self.now) == 0) }
    {
        self.rest.is_empty()
    }

    // The N numbers that are all that is ahead, each after one space; `None` where anything else is.
    pub fn numbers<T: Numeral + Copy + Default, const N: usize>(&mut self) -> Option<[T; N]>
        ensures { SomeExactly result (WritesAll T.form T.size N (ahead self.old)) }
    {
        let mut numbers = [T::default(); N];
        for number in &mut numbers {
            *number = self.next_number()?;
        }
        self.is_done().then_some(numbers)
    }
}

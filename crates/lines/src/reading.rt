// Reading a text line by line. Relies on the reader, and on the definitions of lines and of what a reader has ahead.

ghost use Rattle.lines.specs.Lines.{LinesAreLaidOut, lines_of};
ghost use Rattle.lines.specs.Runs.{HandsOutAll, HandsOutInOrder, NextLine, ahead};
ghost use Rattle.std.specs.Iterator.{at_most};
ghost use Rattle.std.specs.Prelude.{◌≡◌, length};

use crate::reader::{Line, Reader};

impl<'a> Reader<'a> {
    // A reader that has handed out nothing of the text. Of its runs, and of the text's lines, the laws hold.
    pub fn new(text: &'a [u8]) -> Reader<'a>
        ensures same_text { result.text ≡ text.entry }
        ensures all_ahead { ahead result ≡ lines_of text.now }
        ensures none_counted { result.count ≡ 0 }
        ensures hands_out_in_order { HandsOutInOrder result text.now }
        ensures hands_out_all { HandsOutAll result text.now }
        ensures lines_are_laid_out { LinesAreLaidOut }
    {
        Reader {
            text,
            position: 0,
            count: 0,
        }
    }

    // The number of lines handed out so far.
    pub fn lines_read(&self) -> usize
        ensures { result ≡ self.now.count }
    {
        self.count
    }
}

impl<'a> Iterator for Reader<'a> {
    type Item = Line<'a>;

    ghost next_gives = { NextLine };

    ghost remaining = { λ reader. at_most (length (ahead reader)) };

    // The next line of the text; `None` where no line is left.
    fn next(&mut self) -> Option<Line<'a>> {
        let text = self.text;
        let start = self.position;
        if start == text.len() {
            return None;
        }
        let ahead = &text[start..];
        let line_break = ahead.iter().position(|byte| *byte == b'\n');
        let end = start + line_break.unwrap_or(ahead.len());
        let position = if end < text.len() { end + 1 } else { end };
        let number = self.count + 1;
        *self = Reader {
            text,
            position,
            count: number,
        };
        Some(Line {
            number,
            bytes: &text[start..end],
        })
    }
}

#[cfg(test)]
mod tests {
    use super::*;
    use std::test::Fail;

    #[test]
    fn the_last_line_may_lack_its_line_break(rt: HostRuntime) -> Result<(), Fail> {
        let mut reader = Reader::new(b"\nlast");
        assert!(rt; reader.next().is_some());
        let line = reader.next().ok_or("no second line")?;
        assert_eq!(rt; line.number, 2);
        assert!(rt; line.bytes == b"last".as_slice());
        Ok(())
    }

    #[test]
    fn a_final_line_break_begins_no_line(rt: HostRuntime) {
        let mut reader = Reader::new(b"one\n");
        assert!(rt; reader.next().is_some());
        assert!(rt; reader.next().is_none());
        assert_eq!(rt; reader.lines_read(), 1);
    }
}

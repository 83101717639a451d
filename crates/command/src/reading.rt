// Reading a line as its command.

ghost use Rattle.command.specs.Meanings.{Means};

use crate::command::{Command, Malformed};
use crate::kind::Kind;
use crate::parts::{begin, equip, ground, open, read_book, step, withdraw};
use lines::reader::Line;

const LONGEST_LINE: usize = 200;

// The command of a line; none where it is passed over.
pub fn read(line: Line<'_>) -> Result<Option<Command>, Malformed>
    ensures { Means line.entry.bytes.now result }
{
    if line.bytes.len() > LONGEST_LINE {
        return Err(Malformed {});
    }
    let command = match Kind::of(line) {
        Kind::Empty | Kind::Remark(_) => return Ok(None),
        Kind::Areas(words) => begin(words),
        Kind::Soil(words) => ground(words),
        Kind::Fractions(words) => equip(words),
        Kind::Concentrations(words) => open(words),
        Kind::Step(words) => step(words),
        Kind::Withdrawal(words) => withdraw(words),
        Kind::Reading(words) => read_book(words),
        Kind::Other(_) => None,
    };
    command.map(Some).ok_or(Malformed {})
}

// Printing a line: a letter, then numbers, each after one space.

ghost use Rattle.page.specs.Printed.{printed};
ghost use Rattle.std.specs.Prelude.{◌≡◌, ◌<◌, ◌++◌, string_bytes, OnOk};

use std::alloc::AllocError;

pub(crate) fn print_line(page: &mut String, letter: char, numbers: &[u64]) -> Result<(), AllocError>
    requires ascii { letter < 128 }
    ensures { OnOk result (string_bytes page.new ≡ string_bytes page.old ++ printed letter numbers.now) }
{
    page.push(letter)?;
    for number in numbers {
        write!(page, " {number}")?;
    }
    page.push('\n')?;
    Ok(())
}

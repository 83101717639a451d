// Printing what a line answers.

ghost use Rattle.book.specs.Books.{masses};
ghost use Rattle.district.specs.Answers.{answered_reading};
ghost use Rattle.page.specs.Printed.{answer_line, balance_numbers, grams};
ghost use Rattle.node.specs.Answers.{flows_in};
ghost use Rattle.session.specs.Entries.{told};
ghost use Rattle.std.specs.Prelude.{◌≡◌, ◌∷◌, ◌++◌, length, string_bytes, OnOk};

use crate::printing::print_line;
use card::concentrations::NUTRIENTS;
use district::district::Reading;
use node::answer::Flows;
use quantity::mass::Mass;
use reservoir::fault::Refusal;
use session::entry::Entry;
use session::fault::SheetFault;
use std::alloc::AllocError;

// Prints what the line of a number answers, if it is anything.
pub(crate) fn print_answer(
    page: &mut String,
    line: usize,
    answer: Result<Option<Entry>, SheetFault>,
) -> Result<(), AllocError>
    ensures { OnOk result (string_bytes page.new ≡ string_bytes page.old ++ answer_line line (told answer)) }
{
    match answer {
        Ok(None) => Ok(()),
        Ok(Some(Entry::Opened(number, volume))) => print_line(
            page,
            'O',
            &[u64::from(number), volume.0],
        ),
        Ok(Some(Entry::Stepped(number, flows))) => {
            print_line(page, 'S', &step_numbers(number, &flows))
        }
        Ok(Some(Entry::Withdrawn(number, volume))) => print_line(
            page,
            'W',
            &[u64::from(number), volume.0],
        ),
        Ok(Some(Entry::Balance(reading))) => print_line(page, 'B', &balance_numbers(&reading)),
        Err(fault) => {
            let told = Refusal::from(fault);
            let numbers = [
                line as u64,
                u64::from(told.layer),
                u64::from(told.cause),
                u64::from(told.place),
            ];
            print_line(page, 'X', &numbers)
        }
    }
}

// An array has no prepending: its numbers are named.
fn step_numbers(number: u32, flows: &Flows) -> [u64; 8]
    ensures { result ≡ number ∷ flows_in flows.now }
{
    let given = flows.reservoirs;
    [
        u64::from(number),
        given.open.0,
        given.paved.0,
        given.sewer.0,
        given.surface.0,
        given.quick.0,
        given.slow.0,
        flows.rising.0,
    ]
}

fn balance_numbers(reading: &Reading) -> [u64; 11]
    ensures { result ≡ balance_numbers (answered_reading reading.now) }
{
    let book = reading.book;
    let [ammonium, nitrate, phosphor] = whole_grams(&book.loads);
    [
        book.rain.0,
        book.rise.0,
        book.brought_in.0,
        book.evaporated.0,
        book.discharged.0,
        book.sunk.0,
        book.ceded.0,
        reading.storage.0,
        ammonium,
        nitrate,
        phosphor,
    ]
}

// The whole grams of each load.
fn whole_grams(loads: &[Mass; NUTRIENTS]) -> [u64; NUTRIENTS]
    ensures each { result ≡ grams (masses loads.now) }
    ensures three { length result ≡ 3 }
{
    loads.map(|mass| mass.grams)
}

// The page of a sheet.

ghost use Rattle.page.specs.Pages.{PageOf};
ghost use Rattle.std.specs.Prelude.{IfOk, vec_len};

use crate::answers::print_answer;
use command::reading::read;
use lines::reader::Reader;
use node::node::Node;
use session::equipment::Equipment;
use session::fault::SheetFault;
use session::stage::Session;
use std::alloc::{AllocError, Global};

pub const LARGEST_SHEET: usize = 65_536;

// The page of a sheet that is run on a new district over its caller's node cells; an error only for want of memory.
pub fn page<E: Equipment>(
    heap: Global,
    cells: Vec<Option<Node<E::Nodes>>>,
    sheet: &[u8],
) -> Result<Vec<u8>, AllocError>
    ensures { IfOk result (λ page. PageOf E.Nodes.Places.makes E.Equipment.equipped (vec_len cells) sheet.now page.items) }
{
    let mut page = String::new(heap);
    if sheet.len() > LARGEST_SHEET {
        print_answer(&mut page, 0, Err(SheetFault::NoForm))?;
        return Ok(page.into_bytes());
    }
    let mut session: Session<E::Nodes> = Session::new(cells);
    let mut last = 0;
    for line in Reader::new(sheet) {
        let answer = session.run::<E>(read(line));
        print_answer(&mut page, line.number, answer)?;
        last = line.number;
    }
    print_answer(&mut page, last + 1, session.finish())?;
    Ok(page.into_bytes())
}

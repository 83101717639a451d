// The page of a run sheet: what its lines print, from the bytes of the sheet to the bytes of the page. Relies on the lines of
// a text, on their reading as commands, and on the session that runs these.
#![tactic(auto)]

pub mod answers;
pub mod page;
pub mod printing;

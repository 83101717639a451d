// The worked figures: one table in specs/, and one theorem over it. Relies on the rules of the other crates.
#![tactic(auto)]

ghost use Rattle.figures.specs.Figures.{AllHold};
ghost use Rattle.figures.specs.Table.{table};
ghost use Rattle.std.specs.Prelude.{◌≡◌, length};

// How many worked figures there are. The rules give every one of them.
pub fn worked_figures() -> usize
    ensures count { result ≡ length table }
    ensures all_hold { AllHold table }
{
    9
}

#[cfg(test)]
mod tests;

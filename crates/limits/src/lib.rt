// The district at its limits, run as a caller would: numbers, cells, repeated openings, the largest income, and refusals
// that change nothing. There is nothing here but tests.
#![tactic(auto)]

#[cfg(test)]
mod scene;
#[cfg(test)]
mod tests;

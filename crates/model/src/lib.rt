// The district at the level of definitions: its state, its calls and what each answers and leaves, a tally kept from
// calls and answers alone, and the laws of whole runs. All of it stands in specs/, proved in proofs/; the code of the
// district is held to it in the crate above.
#![tactic(auto)]

// What the terminal shows, proved of every input: above the three layers, with no code of its own but the claims.
#![tactic(auto)]

pub mod claims;

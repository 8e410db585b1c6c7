// Key headers of ROOT files and the reader at a place. Every public function takes any input and has no precondition.
#![tactic(auto)]

pub mod header;
pub mod piece;
pub mod short;

// Names of the classes in a StreamerInfo record, and the first place of a byte. Every public function takes any input and has no precondition.
#![tactic(auto)]

pub mod find;
pub mod name;

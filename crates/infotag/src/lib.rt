// Class tags of the objects in a StreamerInfo record. Every public function takes any input and has no precondition.
#![tactic(auto)]

pub mod tag;

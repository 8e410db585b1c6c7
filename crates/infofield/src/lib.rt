// Fields of the objects in a StreamerInfo record: by their size, strings, TObjects, ByteCounts and ends.
// Every public function takes any input and has no precondition.
#![tactic(auto)]

pub mod field;

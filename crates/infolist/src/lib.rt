// The list and the arrays of a StreamerInfo record, round their objects: where these start, how many there are, and the option after each
// object of the list.
// Every public function takes any input and has no precondition.
#![tactic(auto)]

pub mod list;

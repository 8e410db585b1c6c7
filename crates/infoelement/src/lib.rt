// The classes and elements of a StreamerInfo record after their tags: TNamed, a class up to its array, TStreamerElement and the classes over it.
// Every public function takes any input and has no precondition.
#![tactic(auto)]

pub mod element;

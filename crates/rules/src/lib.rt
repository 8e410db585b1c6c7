// The rules of a pass and the order of refusals, as definitions, and the theorem that the two agree. There is no code here.
#![tactic(auto)]

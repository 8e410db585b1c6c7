// Document 01's worked examples, computed by the definitions. There is no code here.
#![tactic(auto)]

// Owns document 01's marked examples, as one table under one claim about the definitions. It has no code.
#![tactic(auto)]

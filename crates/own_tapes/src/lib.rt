// Owns what the judge says of our own machine's tapes (document 02, (v)), and its agreement with the plain SDRAM of the third condition. It has no code.
#![tactic(auto)]

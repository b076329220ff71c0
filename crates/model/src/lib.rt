// Owns the third condition (document 01, "The third condition in full"): the plain SDRAM, the flat memory, every list of calls, and the
// one claim about them, with closed runs of it. It has no code: the claim is about the definitions that the calls' contracts cite. `theorem` proves it.
#![tactic(auto)]

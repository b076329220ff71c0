// Owns the proof of the third condition (`model` has its statement): the invariant and its four parts, what every call does to each, and the theorem.
// It has no code and no definitions.
#![tactic(auto)]

// Owns the laws on sound records (docs/SOUNDNESS.md): a slot and an accepted request give a sound record for every sound one. It has no code and no
// definitions: the laws are about the parts of a machine, so that the machine's own crate can use them.
#![tactic(auto)]

// Owns what keeps a terminal going, for every sound record, also one that no calls made (docs/SOUNDNESS.md): every call gives a sound record, and within
// stated numbers of slots the initialisation ends, a choice is made, and with nothing queued a backlog that is refreshed then is worked off. It has no code.
#![tactic(auto)]

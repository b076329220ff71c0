// Owns what the device allows (document 01, R1 to R15, and R16 of document 02): what the rules see of the past, the rules as a table, and the plain SDRAM's own
// reading of the past, its history. It has no code; `ages` has the sequencer's reading and its code.
#![tactic(auto)]

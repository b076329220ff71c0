// Owns the commands that a slot can carry to the device (document 01, "Commands and their distances").
#![tactic(auto)]

use address::{Bank, Column, Row};

#[derive(Clone, Copy)]
pub enum Command {
    Nop,
    // Opens a row.
    Act(Bank, Row),
    Read(Bank, Column),
    // Writes a halfword.
    Wrt(Bank, Column, u16),
    // Closes one bank.
    Pre(Bank),
    // Closes all banks.
    Deac,
    // Refreshes.
    Refr,
    // Sets the mode register to a word.
    Mrs(u16),
}

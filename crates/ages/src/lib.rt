// Owns the past commands as the sequencer keeps them, as ages: what the rules see of that, its agreement with the plain SDRAM's history,
// and the code that reads it. `aging` makes the past after a slot.
#![tactic(auto)]

ghost use Rattle.std.specs.Prelude.{ℕ, ◌≡◌, List};
ghost use Rattle.device.specs.View.{all_closed};
ghost use Rattle.ages.specs.Ages.{fresh_of, open_in, row_in, open_rows, row_at, row_as};

use address::{Bank, Row};

// The largest distance, where an age stops.
pub const CAP: u8 = 32;

// What is kept of the past commands. An age is in slots, as the next slot sees it: 1 after the command's own slot, 32 at most, and 32 if
// there was none. The ages: ACT of each bank; its PRE or any DEAC; REFR, MRS, any PRE or DEAC, READ; WRT to each bank (docs/PERFORMANCE.md: the order
// counts). The past is lent, and a slot changes it in place.
#[derive(Clone, Copy)]
pub struct Past {
    pub ages: [u8; 16],
    // Is the bank open, and which row was opened in it last? No Option: a closed bank keeps its row, as `sent_of` says.
    pub opened: [bool; 4],
    pub rows: [u16; 4],
    // Has an MRS been sent?
    pub programmed: bool,
}

impl Past {
    // The past before any command was sent.
    #[tactic(auto, unfolding(crate::specs::Ages::fresh_of))]
    pub fn fresh() -> Past
        ensures { result ≡ fresh_of }
    {
        Past {
            ages: [CAP; 16],
            opened: [false; 4],
            rows: [0; 4],
            programmed: false,
        }
    }

    // Is a bank open? One that a device cannot have is closed.
    #[tactic(auto, unfolding(crate::specs::Ages::open_in))]
    pub fn is_open(&self, bank: Bank) -> bool
        ensures { result ≡ open_in self.now.opened bank.0 }
    {
        let b = bank.0 as usize;
        if b < 4 {
            return self.opened[b];
        }
        false
    }

    // The row that was opened last in a bank, row 0 in one that a device cannot have.
    #[tactic(auto, unfolding(crate::specs::Ages::row_in))]
    pub fn row_in(&self, bank: Bank) -> Row
        ensures { result ≡ row_in self.now.rows bank.0 }
    {
        let b = bank.0 as usize;
        if 4 <= b {
            return Row(0);
        }
        Row(self.rows[b])
    }

    // The open row of a bank.
    #[tactic(auto, unfolding(crate::specs::Ages::open_rows))]
    pub fn open_row(&self, bank: Bank) -> Option<Row>
        ensures { row_as result ≡ row_at self.now bank.0 }
    {
        if self.is_open(bank) {
            return Some(self.row_in(bank));
        }
        None
    }

    // Are all banks closed, whatever rows were opened last?
    #[tactic(auto, using(crate::proofs::Record::closed_is))]
    pub fn all_closed(&self) -> bool
        ensures { (rows : List ℕ) → result ≡ all_closed (open_rows self.now.opened rows) }
    {
        self.opened.iter().all(|open| !*open)
    }
}

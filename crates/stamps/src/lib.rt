// Owns the past commands of a tape as the slots of the last ones, told by a clock: what the rules see of that, its agreement with the plain SDRAM's history, and the
// code that reads it and puts a command in. Nothing is made older, so a run of NOPs costs nothing here.
#![tactic(auto)]

ghost use Rattle.std.specs.Prelude.{ℕ, ◌+◌, ◌^◌, ◌<◌, ◌≤◌, ◌≡◌, leb, ltb, length, get_or};
ghost use Rattle.stamps.specs.Stamps.{slot_of, no_stamps, open_at, stamped_of};

use address::{Bank, Column, Row};
use command::Command;

// The clock in slot 1: no distance is longer.
pub const FIRST: u64 = 32;

// What the clock showed when each command was last sent, 0 before the first, and what it shows now. The places are those of ages: ACT of each bank; its PRE or any DEAC;
// REFR, MRS, any PRE or DEAC, READ; WRT to each bank. No command is later than now, and the clock is far from its end.
#[derive(Clone, Copy)]
pub struct Stamps {
    pub last: [u64; 16],
    pub clock: u64,
    pub ghost earlier: { (i : ℕ) → get_or last i 0 ≤ clock },
    pub ghost far: { clock < 2 ^ 63 },
}

// These take any stamps and any clock, and no `Stamps`, whose methods call them.

// The slot in which the clock shows `clock`.
pub fn slot(clock: u64) -> u64
    requires { 31 < clock }
    ensures { result ≡ slot_of clock }
{
    clock - (FIRST - 1)
}

// Is a distance kept from a stamp?
pub fn reached(stamp: u64, distance: u8, clock: u64) -> bool
    requires { (stamp ≤ clock) × (clock < 2 ^ 63) }
    ensures { result ≡ leb (stamp + distance) clock }
{
    stamp + distance as u64 <= clock
}

// Is a bank open?
#[tactic(auto, unfolding(crate::specs::Stamps::open_at))]
pub fn is_open(last: &[u64; 16], b: usize) -> bool
    requires { b < 4 }
    ensures { result ≡ open_at last.now b }
{
    last[4 + b] < last[b]
}

// Has an MRS been sent?
pub fn is_programmed(last: &[u64; 16]) -> bool
    ensures { result ≡ ltb 0 (get_or last.now 9 0) }
{
    0 < last[9]
}

// What each command leaves, sent in the slot in which the clock shows `clock`. One function for each and none for any: the judge makes no `Command` of a record
// (docs/PERFORMANCE.md).

#[tactic(auto, using(crate::proofs::Noted::act_noted))]
pub fn note_act(last: &mut [u64; 16], bank: Bank, clock: u64)
    requires { (length last.old ≡ 16) × (bank.0 < 4) }
    ensures { (row : Row) → last.new ≡ stamped_of clock (Command.Act bank row) last.old }
{
    let b = bank.0 as usize;
    last[b] = clock;
}

#[tactic(auto, using(crate::proofs::Noted::read_noted))]
pub fn note_read(last: &mut [u64; 16], clock: u64)
    requires { length last.old ≡ 16 }
    ensures { (bank : Bank) (column : Column) → last.new ≡ stamped_of clock (Command.Read bank column) last.old }
{
    last[11] = clock;
}

#[tactic(auto, using(crate::proofs::Noted::wrt_noted))]
pub fn note_wrt(last: &mut [u64; 16], bank: Bank, clock: u64)
    requires { (length last.old ≡ 16) × (bank.0 < 4) }
    ensures { (column : Column) (halfword : ℕ) → last.new ≡ stamped_of clock (Command.Wrt bank column halfword) last.old }
{
    let b = bank.0 as usize;
    last[12 + b] = clock;
}

#[tactic(auto, using(crate::proofs::Noted::pre_noted))]
pub fn note_pre(last: &mut [u64; 16], bank: Bank, clock: u64)
    requires { (length last.old ≡ 16) × (bank.0 < 4) }
    ensures { last.new ≡ stamped_of clock (Command.Pre bank) last.old }
{
    let b = bank.0 as usize;
    last[4 + b] = clock;
    last[10] = clock;
}

#[tactic(auto, using(crate::proofs::Noted::deac_noted))]
pub fn note_deac(last: &mut [u64; 16], clock: u64)
    requires { length last.old ≡ 16 }
    ensures { last.new ≡ stamped_of clock Command.Deac last.old }
{
    last[4] = clock;
    last[5] = clock;
    last[6] = clock;
    last[7] = clock;
    last[10] = clock;
}

#[tactic(auto, using(crate::proofs::Noted::refr_noted))]
pub fn note_refr(last: &mut [u64; 16], clock: u64)
    requires { length last.old ≡ 16 }
    ensures { last.new ≡ stamped_of clock Command.Refr last.old }
{
    last[8] = clock;
}

#[tactic(auto, using(crate::proofs::Noted::mrs_noted))]
pub fn note_mrs(last: &mut [u64; 16], clock: u64)
    requires { length last.old ≡ 16 }
    ensures { (word : ℕ) → last.new ≡ stamped_of clock (Command.Mrs word) last.old }
{
    last[9] = clock;
}

impl Stamps {
    // Before any command was sent.
    pub fn new() -> Stamps
        ensures { (result.last ≡ no_stamps) × (result.clock ≡ 32) }
    {
        Stamps {
            last: [0; 16],
            clock: FIRST,
        }
    }

    // The slot that the clock shows.
    pub fn slot(&self) -> u64
        requires { 31 < self.now.clock }
        ensures { result ≡ slot_of self.now.clock }
    {
        slot(self.clock)
    }

    // Is a distance kept from a stamp?
    pub fn reached(&self, stamp: u64, distance: u8) -> bool
        requires { stamp ≤ self.now.clock }
        ensures { result ≡ leb (stamp + distance) self.now.clock }
    {
        reached(stamp, distance, self.clock)
    }

    // Is a distance kept from the command at a place?
    pub fn kept(&self, i: usize, distance: u8) -> bool
        requires { i < 16 }
        ensures { result ≡ leb (get_or self.now.last i 0 + distance) self.now.clock }
    {
        self.reached(self.last[i], distance)
    }

    pub fn is_open(&self, b: usize) -> bool
        requires { b < 4 }
        ensures { result ≡ open_at self.now.last b }
    {
        is_open(&self.last, b)
    }

    pub fn is_programmed(&self) -> bool
        ensures { result ≡ ltb 0 (get_or self.now.last 9 0) }
    {
        is_programmed(&self.last)
    }

    // What each command leaves, in the slot that the clock shows.

    pub fn note_act(&mut self, bank: Bank)
        requires { bank.0 < 4 }
        ensures last { (row : Row) → self.new.last ≡ stamped_of self.old.clock (Command.Act bank row) self.old.last }
        ensures clock { self.new.clock ≡ self.old.clock }
    {
        note_act(&mut self.last, bank, self.clock);
    }

    pub fn note_read(&mut self)
        ensures last { (bank : Bank) (column : Column) → self.new.last ≡ stamped_of self.old.clock (Command.Read bank column) self.old.last }
        ensures clock { self.new.clock ≡ self.old.clock }
    {
        note_read(&mut self.last, self.clock);
    }

    pub fn note_wrt(&mut self, bank: Bank)
        requires { bank.0 < 4 }
        ensures last { (column : Column) (halfword : ℕ) → self.new.last ≡ stamped_of self.old.clock (Command.Wrt bank column halfword) self.old.last }
        ensures clock { self.new.clock ≡ self.old.clock }
    {
        note_wrt(&mut self.last, bank, self.clock);
    }

    #[tactic(auto, using(crate::proofs::Noted::noted_earlier))]
    pub fn note_pre(&mut self, bank: Bank)
        requires { bank.0 < 4 }
        ensures last { self.new.last ≡ stamped_of self.old.clock (Command.Pre bank) self.old.last }
        ensures clock { self.new.clock ≡ self.old.clock }
    {
        note_pre(&mut self.last, bank, self.clock);
    }

    #[tactic(auto, using(crate::proofs::Noted::noted_earlier))]
    pub fn note_deac(&mut self)
        ensures last { self.new.last ≡ stamped_of self.old.clock Command.Deac self.old.last }
        ensures clock { self.new.clock ≡ self.old.clock }
    {
        note_deac(&mut self.last, self.clock);
    }

    #[tactic(auto, using(crate::proofs::Noted::noted_earlier))]
    pub fn note_refr(&mut self)
        ensures last { self.new.last ≡ stamped_of self.old.clock Command.Refr self.old.last }
        ensures clock { self.new.clock ≡ self.old.clock }
    {
        note_refr(&mut self.last, self.clock);
    }

    pub fn note_mrs(&mut self)
        ensures last { (word : ℕ) → self.new.last ≡ stamped_of self.old.clock (Command.Mrs word) self.old.last }
        ensures clock { self.new.clock ≡ self.old.clock }
    {
        note_mrs(&mut self.last, self.clock);
    }

    // Slots pass.
    pub fn pass(&mut self, slots: u16)
        requires { self.old.clock < 2 ^ 62 }
        ensures last { self.new.last ≡ self.old.last }
        ensures clock { self.new.clock ≡ self.old.clock + slots }
    {
        self.clock += slots as u64;
    }
}

// Owns the test whether a command is legal in the next slot, by the ages (R1 to R16; `device` has the rules). No rule asks which rows are
// open, and only ACT's ask whether the mode is set: `verdict` and `act_verdict` of proofs/Hold.antt say so of the rules.
#![tactic(auto)]

ghost use Rattle.std.specs.Prelude.{◌≡◌, ◌||◌, ◌+◌, ◌≤◌, ◌<◌, ℕ, leb, eqb};
ghost use Rattle.config.specs.Accepted.{Shaped};
ghost use Rattle.device.specs.Rules.{all_hold, R7, R16, legal_of};
ghost use Rattle.device.specs.Shared.{precharged_of};
ghost use Rattle.ages.specs.Ages.{by_ages};
ghost use Rattle.legality.specs.Verdict.{settled_of, free_of, all_free_of};

use address::{Bank, Column, Row};
use ages::Past;
use command::Command;
use config::Config;

// R2.
#[tactic(auto, unfolding(crate::specs::Verdict::settled_of))]
fn settled(c: Config, past: &Past) -> bool
    ensures { result ≡ settled_of c past.now.ages }
{
    c.rfc <= past.ages[8] && 2 <= past.ages[9]
}

// R7: each bank is the command's own, or its ACT is far enough back.
#[tactic(auto, unfolding(device::specs::Rules::R7))]
fn all_apart(c: Config, past: &Past, own: u8) -> bool
    ensures { result ≡ all_hold (R7 (by_ages c past.now) own) }
{
    (0..4).all(|b| b == own || c.rrd <= past.ages[b as usize])
}

// R12 or R13 for a DEAC, as one bank has it: its ACT or WRT, whose age stands at its number from a place on, is far enough back if the bank is open.
#[tactic(auto, unfolding(crate::specs::Verdict::free_of))]
fn is_free(past: &Past, from: usize, b: usize, distance: u8) -> bool
    requires { (from ≤ 12) × (b < 4) }
    ensures { result ≡ free_of past.now.ages past.now.opened from distance b }
{
    !past.opened[b] || distance <= past.ages[from + b]
}

// R12 or R13 for a DEAC.
fn all_free(past: &Past, from: usize, distance: u8) -> bool
    requires { from ≤ 12 }
    ensures { result ≡ all_free_of past.now.ages past.now.opened from distance }
{
    (0..4).all(|b| is_free(past, from, b, distance))
}

// R2, R14 and R15, which REFR and MRS have in common: all banks are closed, and long enough.
#[tactic(auto, using(crate::proofs::Hold::precharged_is))]
fn all_precharged(c: Config, past: &Past) -> bool
    ensures { result ≡ precharged_of (by_ages c past.now) }
{
    settled(c, past) && past.all_closed() && c.rp <= past.ages[10]
}

// R16: tRC after every bank's ACT.
#[tactic(auto, unfolding(device::specs::Rules::R16))]
fn all_row_cycled(c: Config, past: &Past) -> bool
    ensures { result ≡ all_hold (R16 (by_ages c past.now)) }
{
    past.ages[..4].iter().all(|age| c.rc <= *age)
}

// R10, by the age of the last READ.
fn read_to_write(age: u8, latency: u8) -> bool
    ensures { result ≡ leb (latency + 2) age }
{
    (latency as u16) + 2 <= (age as u16)
}

// ACT: R1 to R7.
#[tactic(auto, using(device::proofs::Alike::in_four, ages::proofs::Record::open_here, crate::proofs::Hold::act_is))]
pub fn act_legal(c: Config, past: &Past, bank: Bank, row: Row) -> bool
    requires { Shaped c.geometry }
    ensures { result ≡ legal_of c (by_ages c past.now) (Command.Act bank row) }
{
    let b = bank.0 as usize;
    address::inside(bank.0 as u16, c.geometry.banks)
        && address::inside(row.0, c.geometry.rows)
        && settled(c, past)
        && past.programmed
        && !past.opened[b]
        && c.rp <= past.ages[4 + b]
        && c.rc <= past.ages[b]
        && all_apart(c, past, bank.0)
}

// READ: R1, R2, R8, R9.
#[tactic(auto, using(device::proofs::Alike::in_four, ages::proofs::Record::open_here, crate::proofs::Hold::read_is))]
pub fn read_legal(c: Config, past: &Past, bank: Bank, column: Column) -> bool
    requires { Shaped c.geometry }
    ensures { result ≡ legal_of c (by_ages c past.now) (Command.Read bank column) }
{
    let b = bank.0 as usize;
    address::inside(bank.0 as u16, c.geometry.banks)
        && address::inside(column.0, c.geometry.columns)
        && settled(c, past)
        && past.opened[b]
        && c.rcd <= past.ages[b]
}

// WRT: READ's rules and R10. The halfword doesn't matter.
#[tactic(auto, using(crate::proofs::Hold::wrt_is))]
pub fn wrt_legal(c: Config, past: &Past, bank: Bank, column: Column) -> bool
    requires { Shaped c.geometry }
    ensures { (halfword : ℕ) → result ≡ legal_of c (by_ages c past.now) (Command.Wrt bank column halfword) }
{
    read_legal(c, past, bank, column) && read_to_write(past.ages[11], c.latency)
}

// PRE: R1, R2, R11, R12, R13.
#[tactic(auto, using(device::proofs::Alike::in_four, ages::proofs::Record::open_here, crate::proofs::Hold::pre_is))]
pub fn pre_legal(c: Config, past: &Past, bank: Bank) -> bool
    requires { Shaped c.geometry }
    ensures { result ≡ legal_of c (by_ages c past.now) (Command.Pre bank) }
{
    let b = bank.0 as usize;
    address::inside(bank.0 as u16, c.geometry.banks)
        && settled(c, past)
        && past.opened[b]
        && c.ras <= past.ages[b]
        && c.wr <= past.ages[12 + b]
}

// DEAC: R2, R12, R13.
#[tactic(auto, using(crate::proofs::Hold::deac_is))]
pub fn deac_legal(c: Config, past: &Past) -> bool
    ensures { result ≡ legal_of c (by_ages c past.now) Command.Deac }
{
    settled(c, past) && all_free(past, 0, c.ras) && all_free(past, 12, c.wr)
}

// REFR: R2, R14, R15, R16.
#[tactic(auto, using(device::proofs::Parts::refr_parts))]
pub fn refr_legal(c: Config, past: &Past) -> bool
    ensures { result ≡ legal_of c (by_ages c past.now) Command.Refr }
{
    all_precharged(c, past) && all_row_cycled(c, past)
}

// MRS: R1, R2, R14, R15.
#[tactic(auto, using(device::proofs::Parts::mrs_parts))]
pub fn mrs_legal(c: Config, past: &Past, word: u16) -> bool
    ensures { result ≡ legal_of c (by_ages c past.now) (Command.Mrs word) }
{
    word == 16 * (c.latency as u16) && all_precharged(c, past)
}

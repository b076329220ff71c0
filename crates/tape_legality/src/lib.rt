// Owns the test whether a command of a tape is legal in the next slot, by the stamps of the past commands (R1 to R16; `device` has the
// rules). It says no rule's number: `violation` looks for that where a command is not legal.
#![tactic(auto)]

ghost use Rattle.std.specs.Prelude.{◌≡◌, true, ◌||◌, ℕ, ◌+◌, ◌<◌, ◌≤◌, max, leb, eqb, get_or};
ghost use Rattle.config.specs.Accepted.{Accepted};
ghost use Rattle.device.specs.Rules.{all_hold, R7, R16, legal_of};
ghost use Rattle.device.specs.Shared.{precharged_of};
ghost use Rattle.stamps.specs.Stamps.{by_stamps};
ghost use Rattle.tape_legality.specs.Tests.{settled_of, latest_of, free_of, all_free_of, any_open_of};

use address::{Bank, Column, Row};
use command::Command;
use config::Config;
use stamps::Stamps;

// R2.
#[tactic(auto, unfolding(crate::specs::Tests::settled_of))]
pub fn settled(c: Config, past: &Stamps) -> bool
    ensures { result ≡ settled_of c past.now.last past.now.clock }
{
    past.kept(8, c.rfc) && past.kept(9, 2)
}

// The latest ACT of all banks.
#[tactic(auto, unfolding(crate::specs::Tests::latest_of))]
fn latest_act(past: &Stamps) -> u64
    ensures { result ≡ latest_of past.now.last }
{
    past.last[0]
        .max(past.last[1])
        .max(past.last[2].max(past.last[3]))
}

// R7, as one bank has it: it is the command's own, or its ACT is far enough back.
fn apart(past: &Stamps, other: u8, own: u8, distance: u8) -> bool
    requires { other < 4 }
    ensures { result ≡ (eqb other own || leb (get_or past.now.last other 0 + distance) past.now.clock) }
{
    other == own || past.kept(other as usize, distance)
}

// R7, bank by bank. The four banks stand in a row, and so below: with `(0..4).all(..)` the proof of this one did not close.
#[tactic(auto, using(crate::proofs::Hold::apart_is))]
fn each_apart(c: Config, past: &Stamps, own: u8) -> bool
    ensures { result ≡ all_hold (R7 (by_stamps c past.now.last past.now.clock) own) }
{
    apart(past, 0, own, c.rrd)
        && apart(past, 1, own, c.rrd)
        && apart(past, 2, own, c.rrd)
        && apart(past, 3, own, c.rrd)
}

// R7. As a rule the latest ACT of all banks is far enough back, and then each is.
#[tactic(auto, using(device::proofs::Tests::told, crate::proofs::Hold::latest_earlier))]
pub fn all_apart(c: Config, past: &Stamps, own: u8) -> bool
    ensures { result ≡ all_hold (R7 (by_stamps c past.now.last past.now.clock) own) }
{
    if past.reached(latest_act(past), c.rrd) {
        return true;
    }
    each_apart(c, past, own)
}

// R12 or R13 for a DEAC, as one bank has it: its ACT or WRT stands at its number from a place on, and is far enough back if the bank is open.
#[tactic(auto, unfolding(crate::specs::Tests::free_of))]
pub fn free(past: &Stamps, from: usize, b: usize, distance: u8) -> bool
    requires { (from ≤ 12) × (b < 4) }
    ensures { result ≡ free_of past.now.last from distance past.now.clock b }
{
    !past.is_open(b) || past.kept(from + b, distance)
}

// R12 or R13 for a DEAC.
fn all_free(past: &Stamps, from: usize, distance: u8) -> bool
    requires { from ≤ 12 }
    ensures { result ≡ all_free_of past.now.last from distance past.now.clock }
{
    free(past, from, 0, distance)
        && free(past, from, 1, distance)
        && free(past, from, 2, distance)
        && free(past, from, 3, distance)
}

// R14 asks that none is.
fn any_open(past: &Stamps) -> bool
    ensures { result ≡ any_open_of past.now.last }
{
    past.is_open(0) || past.is_open(1) || past.is_open(2) || past.is_open(3)
}

// R2, R14 and R15, which REFR and MRS have in common: all banks are closed, and long enough.
#[tactic(auto, using(device::proofs::Tests::failed, device::proofs::Tests::passed, crate::proofs::Hold::precharged_is))]
fn all_precharged(c: Config, past: &Stamps) -> bool
    ensures { result ≡ precharged_of (by_stamps c past.now.last past.now.clock) }
{
    settled(c, past) && !any_open(past) && past.kept(10, c.rp)
}

// R16: tRC after every bank's ACT.
#[tactic(auto, using(crate::proofs::Hold::row_cycled_is))]
fn all_row_cycled(c: Config, past: &Stamps) -> bool
    ensures { result ≡ all_hold (R16 (by_stamps c past.now.last past.now.clock)) }
{
    past.kept(0, c.rc) && past.kept(1, c.rc) && past.kept(2, c.rc) && past.kept(3, c.rc)
}

// ACT: R1 to R7.
#[tactic(auto, using(device::proofs::Alike::in_four, device::proofs::Tests::true_and, device::proofs::Tests::failed, device::proofs::Tests::passed, device::proofs::Tests::told, crate::proofs::Hold::act_is))]
pub fn act_legal(c: Config, past: &Stamps, bank: Bank, row: Row) -> bool
    requires { Accepted c }
    ensures { result ≡ legal_of c (by_stamps c past.now.last past.now.clock) (Command.Act bank row) }
{
    if !address::inside(bank.0 as u16, c.geometry.banks) {
        return false;
    }
    if !address::inside(row.0, c.geometry.rows) {
        return false;
    }
    if !settled(c, past) {
        return false;
    }
    if !past.is_programmed() {
        return false;
    }
    let b = bank.0 as usize;
    if past.is_open(b) {
        return false;
    }
    if !past.kept(4 + b, c.rp) {
        return false;
    }
    if !past.kept(b, c.rc) {
        return false;
    }
    all_apart(c, past, bank.0)
}

// READ: R1, R2, R8, R9.
#[tactic(auto, using(device::proofs::Alike::in_four, device::proofs::Tests::failed, device::proofs::Tests::passed, crate::proofs::Hold::read_is))]
pub fn read_legal(c: Config, past: &Stamps, bank: Bank, column: Column) -> bool
    requires { Accepted c }
    ensures { result ≡ legal_of c (by_stamps c past.now.last past.now.clock) (Command.Read bank column) }
{
    if !address::inside(bank.0 as u16, c.geometry.banks) {
        return false;
    }
    if !address::inside(column.0, c.geometry.columns) {
        return false;
    }
    if !settled(c, past) {
        return false;
    }
    let b = bank.0 as usize;
    if !past.is_open(b) {
        return false;
    }
    past.kept(b, c.rcd)
}

// WRT: READ's rules and R10. The halfword doesn't matter.
#[tactic(auto, using(device::proofs::Tests::failed, device::proofs::Tests::passed, crate::proofs::Hold::wrt_is))]
pub fn wrt_legal(c: Config, past: &Stamps, bank: Bank, column: Column) -> bool
    requires { Accepted c }
    ensures { (halfword : ℕ) → result ≡ legal_of c (by_stamps c past.now.last past.now.clock) (Command.Wrt bank column halfword) }
{
    read_legal(c, past, bank, column) && past.kept(11, c.latency + 2)
}

// PRE: R1, R2, R11, R12, R13.
#[tactic(auto, using(device::proofs::Alike::in_four, device::proofs::Tests::failed, device::proofs::Tests::passed, crate::proofs::Hold::pre_is))]
pub fn pre_legal(c: Config, past: &Stamps, bank: Bank) -> bool
    requires { Accepted c }
    ensures { result ≡ legal_of c (by_stamps c past.now.last past.now.clock) (Command.Pre bank) }
{
    if !address::inside(bank.0 as u16, c.geometry.banks) {
        return false;
    }
    if !settled(c, past) {
        return false;
    }
    let b = bank.0 as usize;
    if !past.is_open(b) {
        return false;
    }
    if !past.kept(b, c.ras) {
        return false;
    }
    past.kept(12 + b, c.wr)
}

// DEAC: R2, R12, R13.
#[tactic(auto, using(device::proofs::Tests::failed, device::proofs::Tests::passed, crate::proofs::Hold::deac_is))]
pub fn deac_legal(c: Config, past: &Stamps) -> bool
    ensures { result ≡ legal_of c (by_stamps c past.now.last past.now.clock) Command.Deac }
{
    settled(c, past) && all_free(past, 0, c.ras) && all_free(past, 12, c.wr)
}

// REFR: R2, R14, R15, R16.
#[tactic(auto, using(device::proofs::Parts::refr_parts, device::proofs::Tests::failed, device::proofs::Tests::passed))]
pub fn refr_legal(c: Config, past: &Stamps) -> bool
    ensures { result ≡ legal_of c (by_stamps c past.now.last past.now.clock) Command.Refr }
{
    all_precharged(c, past) && all_row_cycled(c, past)
}

// MRS: R1, R2, R14, R15.
#[tactic(auto, using(device::proofs::Parts::mrs_parts))]
pub fn mrs_legal(c: Config, past: &Stamps, word: u16) -> bool
    ensures { result ≡ legal_of c (by_stamps c past.now.last past.now.clock) (Command.Mrs word) }
{
    word == 16 * (c.latency as u16) && all_precharged(c, past)
}

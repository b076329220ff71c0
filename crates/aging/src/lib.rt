// Owns the past after a slot (`ages` has the record), made in place: what the slot's command starts is noted with age 0, and then the slot passes, in which all
// ages become a slot older. A bank that no device has is taken for none.
#![tactic(auto, unfolding(crate::specs::Noted::noted_of, crate::specs::Noted::noted_ages, crate::specs::Noted::noted_open, crate::specs::Noted::noted_rows, crate::specs::Noted::noted_mode))]

ghost use Rattle.std.specs.Prelude.{◌≡◌, false, ℕ};
ghost use Rattle.ages.specs.Ages.{aged_of};
ghost use Rattle.aging.specs.Noted.{noted_of, elapsed_of};

use address::{Bank, Column, Row};
use ages::{CAP, Past};
use command::Command;

// An age after a slot whose command doesn't start its distances. A test and no `min`: one more than an age need not fit.
#[tactic(auto, unfolding(ages::specs::Ages::aged_of))]
fn aged(age: u8) -> u8
    ensures { result ≡ aged_of false age }
{
    if CAP <= age {
        return CAP;
    }
    age + 1
}

// A slot passes. By index: after `iter_mut` a proof knows no element.
#[tactic(auto, using(crate::proofs::Loop::changed_next, crate::proofs::Loop::changed_all, crate::proofs::Loop::changed_length), unfolding(crate::specs::Noted::elapsed_of))]
pub fn elapse(past: &mut Past)
    ensures { past.new ≡ elapsed_of past.old }
{
    for i in 0..16 {
        past.ages[i] = aged(past.ages[i]);
    }
}

// What each command starts.

pub fn note_act(past: &mut Past, bank: Bank, row: Row)
    ensures { past.new ≡ noted_of past.old (Command.Act bank row) }
{
    let b = bank.0 as usize;
    if b < 4 {
        past.ages[b] = 0;
        past.opened[b] = true;
        past.rows[b] = row.0;
    }
}

pub fn note_read(past: &mut Past)
    ensures { (bank : Bank) (column : Column) → past.new ≡ noted_of past.old (Command.Read bank column) }
{
    past.ages[11] = 0;
}

pub fn note_wrt(past: &mut Past, bank: Bank)
    ensures { (column : Column) (halfword : ℕ) → past.new ≡ noted_of past.old (Command.Wrt bank column halfword) }
{
    let b = bank.0 as usize;
    if b < 4 {
        past.ages[12 + b] = 0;
    }
}

// A PRE starts R15's distance, too, whatever its bank.
pub fn note_pre(past: &mut Past, bank: Bank)
    ensures { past.new ≡ noted_of past.old (Command.Pre bank) }
{
    past.ages[10] = 0;
    let b = bank.0 as usize;
    if b < 4 {
        past.ages[4 + b] = 0;
        past.opened[b] = false;
    }
}

pub fn note_deac(past: &mut Past)
    ensures { past.new ≡ noted_of past.old Command.Deac }
{
    past.ages[4] = 0;
    past.ages[5] = 0;
    past.ages[6] = 0;
    past.ages[7] = 0;
    past.ages[10] = 0;
    past.opened = [false; 4];
}

pub fn note_refr(past: &mut Past)
    ensures { past.new ≡ noted_of past.old Command.Refr }
{
    past.ages[8] = 0;
}

pub fn note_mrs(past: &mut Past)
    ensures { (word : ℕ) → past.new ≡ noted_of past.old (Command.Mrs word) }
{
    past.ages[9] = 0;
    past.programmed = true;
}

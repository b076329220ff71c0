// Owns the record at a place of a tape (document 02, (ii)).
#![tactic(auto)]

ghost use Rattle.std.specs.Prelude.{◌+◌, ◌*◌, ◌<◌, ◌≡◌, length, get_or};
ghost use Rattle.tape.specs.Reading.{body_length, wrong_run, step_of};
ghost use Rattle.tape_decoder.specs.Decoder.{step_in};
ghost use Rattle.tape_decoder.specs.Shapes.{run_step, Whole};

use address::{Bank, Column, Row};
use command::Command;
use tape::{Item, Refusal};

// What is read at a place, and afterwards the place and the count of the run just before it, else 0: `step_of` takes it so.
#[derive(Clone, Copy)]
pub struct Found {
    pub item: Item,
    pub at: usize,
    pub before: u16,
}

// How many bytes follow a kind.
#[tactic(auto, using(crate::proofs::Steps::no_body), unfolding(tape::specs::Reading::body_length))]
fn body_length(kind: u8) -> usize
    ensures { result ≡ body_length kind }
{
    match kind {
        0 => 2,
        1 => 3,
        2 => 3,
        3 => 5,
        4 => 1,
        7 => 2,
        _ => 0,
    }
}

// A number in two bytes at a place of a tape, the low one first.
pub fn pair_at(tape: &[u8], at: usize) -> u16
    requires { at + 1 < length tape.now }
    ensures { result ≡ get_or tape.now at 0 + 256 * get_or tape.now (at + 1) 0 }
{
    u16::from_le_bytes([tape[at], tape[at + 1]])
}

// A refused record leaves the reader as it was.
fn refused(why: Refusal, at: usize, before: u16) -> Found
    ensures { result ≡ record { item = Item.Refused why at; at = at; before = before } }
{
    let item = Item::Refused(why, at);
    Found { item, at, before }
}

// After a command no run stands just before.
fn sent(command: Command, at: usize) -> Found
    ensures { result ≡ record { item = Item.Command command; at = at; before = 0 } }
{
    let item = Item::Command(command);
    Found {
        item,
        at,
        before: 0,
    }
}

// Is a run after another of so many NOPs, or after none (0), refused?
#[tactic(auto, unfolding(tape::specs::Reading::wrong_run))]
pub fn wrong_run(before: u16, count: u16) -> bool
    ensures { result ≡ wrong_run before count }
{
    if count == 0 {
        return true;
    }
    if 0 < before {
        return before < 65535;
    }
    false
}

// A run at a place, after another of so many NOPs, or after none.
#[tactic(auto, unfolding(crate::specs::Shapes::run_step))]
fn run_at(at: usize, before: u16, count: u16) -> Found
    requires { at + 3 < 18446744073709551616 }
    ensures { step_in result ≡ run_step at before count }
{
    if wrong_run(before, count) {
        return refused(Refusal::Run, at, before);
    }
    Found {
        item: Item::Run(count),
        at: at + 3,
        before: count,
    }
}

// A record of a known kind that the tape holds whole. A chain of comparisons and not a match, which becomes an indirect jump (docs/PERFORMANCE.md).
#[tactic(auto, using(crate::proofs::Steps::bank_body, crate::proofs::Steps::low_body, crate::proofs::Steps::rest_at_lem, crate::proofs::Steps::run_here, crate::proofs::Steps::command_here), unfolding(tape::specs::Reading::body_length, tape::specs::Reading::command_of))]
fn record_at(tape: &[u8], at: usize, before: u16, kind: u8) -> Found
    requires { Whole tape.now at kind }
    ensures { step_in result ≡ step_of tape.now at before }
{
    if kind < 1 {
        return run_at(at, before, pair_at(tape, at + 1));
    }
    if 6 < kind {
        return sent(Command::Mrs(pair_at(tape, at + 1)), at + 3);
    }
    if 5 < kind {
        return sent(Command::Refr, at + 1);
    }
    if 4 < kind {
        return sent(Command::Deac, at + 1);
    }
    let bank = Bank(tape[at + 1]);
    if 3 < kind {
        return sent(Command::Pre(bank), at + 2);
    }
    let low = pair_at(tape, at + 2);
    if kind < 2 {
        return sent(Command::Act(bank, Row(low)), at + 4);
    }
    if kind < 3 {
        return sent(Command::Read(bank, Column(low)), at + 4);
    }
    sent(
        Command::Wrt(bank, Column(low), pair_at(tape, at + 4)),
        at + 6,
    )
}

// The record at a place of a tape, after a run of so many NOPs (0: after no run).
#[tactic(auto, using(crate::proofs::Steps::end_here, crate::proofs::Steps::refused_kind, crate::proofs::Steps::refused_cut))]
pub fn read_at(tape: &[u8], at: usize, before: u16) -> Found
    ensures { step_in result ≡ step_of tape.now at before }
{
    if tape.len() <= at {
        return Found {
            item: Item::End,
            at,
            before,
        };
    }
    let kind = tape[at];
    if 7 < kind {
        return refused(Refusal::Kind, at, before);
    }
    if tape.len() - at - 1 < body_length(kind) {
        return refused(Refusal::Cut, at, before);
    }
    record_at(tape, at, before, kind)
}

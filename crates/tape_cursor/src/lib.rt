// Owns one record of a tape as a judge takes it (document 02, (v)): a legal command is sent, a run of NOPs passes, and anything else halts the judge. The record is read and
// tested in one go, without a `Command` between (docs/PERFORMANCE.md).
#![tactic(auto)]

ghost use Rattle.std.specs.Prelude.{ℕ, ◌<◌, ◌≤◌, ◌+◌, ◌^◌, ◌≡◌, true, List, Option, Some, None};
ghost use Rattle.config.specs.Accepted.{Accepted};
ghost use Rattle.tape.specs.Reading.{step_of};
ghost use Rattle.tape_cursor.specs.Taken.{taken_as, taken_of, Here};

use address::{Bank, Column, Row};
use config::Config;
use stamps::Stamps;
use tape_decoder::pair_at;

// Where a judge stands on a tape: its place there, and the count of the run just before it, else 0.
#[derive(Clone, Copy)]
pub struct Cursor {
    pub at: usize,
    pub before: u16,
}

// Behind a command of so many bytes.
fn sent(p: Cursor, bytes: usize) -> Option<Cursor>
    requires { p.at + bytes < 2 ^ 64 }
    ensures { result ≡ Some (record { at = p.at + bytes; before = 0 }) }
{
    Some(Cursor {
        at: p.at + bytes,
        before: 0,
    })
}

#[tactic(auto, using(device::proofs::Tests::told, crate::proofs::Records::run_step_lem, crate::proofs::Records::cut_halts, crate::proofs::Records::wrong_halts, crate::proofs::Records::run_passes), unfolding(tape::specs::Reading::body_length))]
fn take_run(past: &mut Stamps, tape: &[u8], p: Cursor) -> Option<Cursor>
    requires { (past.old.clock < 2 ^ 62) × Here tape.now p 0 }
    ensures last_after { (c : Config) → taken_as result past.new.last past.new.clock ≡ taken_of c past.old.last past.old.clock p (step_of tape.now p.at p.before) }
    ensures clock_bound { past.new.clock ≤ past.old.clock + 65535 }
{
    if tape.len() - p.at < 3 {
        return None;
    }
    let count = pair_at(tape, p.at + 1);
    if tape_decoder::wrong_run(p.before, count) {
        return None;
    }
    past.pass(count);
    Some(Cursor {
        at: p.at + 3,
        before: count,
    })
}

// One function for each command: they differ in the body's bytes and in the test, and one that takes both by a closure is no plainer.
#[tactic(auto, using(device::proofs::Tests::told, crate::proofs::Records::act_four, crate::proofs::Records::act_step, crate::proofs::Records::cut_halts, crate::proofs::Records::legal_sent, crate::proofs::Records::illegal_halts), unfolding(tape::specs::Reading::body_length))]
fn take_act(c: Config, past: &mut Stamps, tape: &[u8], p: Cursor) -> Option<Cursor>
    requires { Accepted c × (past.old.clock < 2 ^ 62) × Here tape.now p 1 }
    ensures last_after { taken_as result past.new.last past.new.clock ≡ taken_of c past.old.last past.old.clock p (step_of tape.now p.at p.before) }
    ensures clock_bound { past.new.clock ≤ past.old.clock + 65535 }
{
    if tape.len() - p.at < 4 {
        return None;
    }
    let bank = Bank(tape[p.at + 1]);
    let row = Row(pair_at(tape, p.at + 2));
    if tape_legality::act_legal(c, past, bank, row) {
        past.note_act(bank);
        past.pass(1);
        return sent(p, 4);
    }
    None
}

#[tactic(auto, using(device::proofs::Tests::told, crate::proofs::Records::read_step, crate::proofs::Records::cut_halts, crate::proofs::Records::legal_sent, crate::proofs::Records::illegal_halts), unfolding(tape::specs::Reading::body_length))]
fn take_read(c: Config, past: &mut Stamps, tape: &[u8], p: Cursor) -> Option<Cursor>
    requires { Accepted c × (past.old.clock < 2 ^ 62) × Here tape.now p 2 }
    ensures last_after { taken_as result past.new.last past.new.clock ≡ taken_of c past.old.last past.old.clock p (step_of tape.now p.at p.before) }
    ensures clock_bound { past.new.clock ≤ past.old.clock + 65535 }
{
    if tape.len() - p.at < 4 {
        return None;
    }
    let bank = Bank(tape[p.at + 1]);
    let column = Column(pair_at(tape, p.at + 2));
    if tape_legality::read_legal(c, past, bank, column) {
        past.note_read();
        past.pass(1);
        return sent(p, 4);
    }
    None
}

#[tactic(auto, using(device::proofs::Tests::told, crate::proofs::Records::pair, crate::proofs::Records::wrt_four, crate::proofs::Records::wrt_step, crate::proofs::Records::cut_halts, crate::proofs::Records::legal_sent, crate::proofs::Records::illegal_halts), unfolding(tape::specs::Reading::body_length))]
fn take_wrt(c: Config, past: &mut Stamps, tape: &[u8], p: Cursor) -> Option<Cursor>
    requires { Accepted c × (past.old.clock < 2 ^ 62) × Here tape.now p 3 }
    ensures last_after { taken_as result past.new.last past.new.clock ≡ taken_of c past.old.last past.old.clock p (step_of tape.now p.at p.before) }
    ensures clock_bound { past.new.clock ≤ past.old.clock + 65535 }
{
    if tape.len() - p.at < 6 {
        return None;
    }
    let bank = Bank(tape[p.at + 1]);
    let column = Column(pair_at(tape, p.at + 2));
    if tape_legality::wrt_legal(c, past, bank, column) {
        past.note_wrt(bank);
        past.pass(1);
        return sent(p, 6);
    }
    None
}

#[tactic(auto, using(device::proofs::Tests::told, crate::proofs::Records::pre_four, crate::proofs::Records::pre_step, crate::proofs::Records::cut_halts, crate::proofs::Records::legal_sent, crate::proofs::Records::illegal_halts), unfolding(tape::specs::Reading::body_length))]
fn take_pre(c: Config, past: &mut Stamps, tape: &[u8], p: Cursor) -> Option<Cursor>
    requires { Accepted c × (past.old.clock < 2 ^ 62) × Here tape.now p 4 }
    ensures last_after { taken_as result past.new.last past.new.clock ≡ taken_of c past.old.last past.old.clock p (step_of tape.now p.at p.before) }
    ensures clock_bound { past.new.clock ≤ past.old.clock + 65535 }
{
    if tape.len() - p.at < 2 {
        return None;
    }
    let bank = Bank(tape[p.at + 1]);
    if tape_legality::pre_legal(c, past, bank) {
        past.note_pre(bank);
        past.pass(1);
        return sent(p, 2);
    }
    None
}

#[tactic(auto, using(device::proofs::Tests::told, crate::proofs::Records::deac_step, crate::proofs::Records::legal_sent, crate::proofs::Records::illegal_halts))]
fn take_deac(c: Config, past: &mut Stamps, tape: &[u8], p: Cursor) -> Option<Cursor>
    requires { Accepted c × (past.old.clock < 2 ^ 62) × Here tape.now p 5 }
    ensures last_after { taken_as result past.new.last past.new.clock ≡ taken_of c past.old.last past.old.clock p (step_of tape.now p.at p.before) }
    ensures clock_bound { past.new.clock ≤ past.old.clock + 65535 }
{
    if tape_legality::deac_legal(c, past) {
        past.note_deac();
        past.pass(1);
        return sent(p, 1);
    }
    None
}

#[tactic(auto, using(device::proofs::Tests::told, crate::proofs::Records::refr_step, crate::proofs::Records::legal_sent, crate::proofs::Records::illegal_halts))]
fn take_refr(c: Config, past: &mut Stamps, tape: &[u8], p: Cursor) -> Option<Cursor>
    requires { Accepted c × (past.old.clock < 2 ^ 62) × Here tape.now p 6 }
    ensures last_after { taken_as result past.new.last past.new.clock ≡ taken_of c past.old.last past.old.clock p (step_of tape.now p.at p.before) }
    ensures clock_bound { past.new.clock ≤ past.old.clock + 65535 }
{
    if tape_legality::refr_legal(c, past) {
        past.note_refr();
        past.pass(1);
        return sent(p, 1);
    }
    None
}

#[tactic(auto, using(device::proofs::Tests::told, crate::proofs::Records::mrs_step, crate::proofs::Records::cut_halts, crate::proofs::Records::legal_sent, crate::proofs::Records::illegal_halts), unfolding(tape::specs::Reading::body_length))]
fn take_mrs(c: Config, past: &mut Stamps, tape: &[u8], p: Cursor) -> Option<Cursor>
    requires { Accepted c × (past.old.clock < 2 ^ 62) × Here tape.now p 7 }
    ensures last_after { taken_as result past.new.last past.new.clock ≡ taken_of c past.old.last past.old.clock p (step_of tape.now p.at p.before) }
    ensures clock_bound { past.new.clock ≤ past.old.clock + 65535 }
{
    if tape.len() - p.at < 3 {
        return None;
    }
    if tape_legality::mrs_legal(c, past, pair_at(tape, p.at + 1)) {
        past.note_mrs();
        past.pass(1);
        return sent(p, 3);
    }
    None
}

// The record at a cursor, and where it leads; none where the judge halts. A `match` on the kind would become an indirect jump.
#[tactic(auto, using(crate::proofs::Records::end_halts, crate::proofs::Records::kind_halts))]
pub fn take(c: Config, past: &mut Stamps, tape: &[u8], p: Cursor) -> Option<Cursor>
    requires { Accepted c × (past.old.clock < 2 ^ 62) }
    ensures last_after { taken_as result past.new.last past.new.clock ≡ taken_of c past.old.last past.old.clock p (step_of tape.now p.at p.before) }
    ensures clock_bound { past.new.clock ≤ past.old.clock + 65535 }
{
    let at = p.at;
    if tape.len() <= at {
        return None;
    }
    let kind = tape[at];
    if kind < 1 {
        return take_run(past, tape, p);
    }
    if kind < 2 {
        return take_act(c, past, tape, p);
    }
    if kind < 3 {
        return take_read(c, past, tape, p);
    }
    if kind < 4 {
        return take_wrt(c, past, tape, p);
    }
    if kind < 5 {
        return take_pre(c, past, tape, p);
    }
    if kind < 6 {
        return take_deac(c, past, tape, p);
    }
    if kind < 7 {
        return take_refr(c, past, tape, p);
    }
    if kind < 8 {
        return take_mrs(c, past, tape, p);
    }
    None
}

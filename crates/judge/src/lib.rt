// Owns the judge of tapes (document 02, (v)): are all commands of a tape legal, for the device that four register words describe? If not, which slot is the first that is not,
// which rule does it break, and for which bank?
#![tactic(auto)]

ghost use Rattle.std.specs.Prelude.{◌+◌, ◌*◌, ◌^◌, ◌≤◌, ◌<◌, ◌≡◌, false, length, IfOk, IfSome};
ghost use Rattle.config.specs.Accepted.{Accepted};
ghost use Rattle.device.specs.Rules.{legal_of};
ghost use Rattle.tape.specs.Reading.{step_of, contents_of};
ghost use Rattle.stamps.specs.Stamps.{no_stamps, by_stamps};
ghost use Rattle.judge.specs.Judge.{judged_of, longest, judge_of};
ghost use Rattle.judge.specs.Verdict.{number_of, verdict_in};
ghost use Rattle.judge.specs.Halted.{illegal_by, halted_at, Halts};

use command::Command;
use config::Config;
use stamps::Stamps;
use tape::Item;
use tape_cursor::Cursor;
use violation::Violation;

// The first slot that is illegal, counted from 1, and what is broken in it.
#[derive(Clone, Copy, Debug, PartialEq, Eq)]
pub struct IllegalSlot {
    pub slot: u64,
    pub violation: Violation,
}

// Why a tape is not judged.
#[derive(Clone, Copy, Debug, PartialEq, Eq)]
pub enum JudgeError {
    // 1 to 3: the register words describe no device.
    Configuration(refusal::Refusal),
    // 19: the tape is longer than `LONGEST`.
    TooLong,
    // 11 to 13: a record is refused.
    Record(tape::Refusal),
}

impl JudgeError {
    // Its number in documents 01 and 02.
    pub fn number(self) -> u8
        ensures { result ≡ number_of self }
    {
        match self {
            JudgeError::Configuration(why) => why.number(),
            JudgeError::TooLong => 19,
            JudgeError::Record(why) => why.number(),
        }
    }
}

impl From<refusal::Refusal> for JudgeError {
    ghost use Rattle.judge.specs.declared.JudgeError.{JudgeError};

    ghost from_gives = { λ why e. e ≡ JudgeError.Configuration why };

    fn from(why: refusal::Refusal) -> JudgeError {
        JudgeError::Configuration(why)
    }
}

impl From<tape_scan::Refused> for JudgeError {
    ghost use Rattle.judge.specs.declared.JudgeError.{JudgeError};

    ghost from_gives = { λ refused e. e ≡ JudgeError.Record refused.why };

    fn from(refused: tape_scan::Refused) -> JudgeError {
        JudgeError::Record(refused.why)
    }
}

// The longest tape that is judged, in bytes.
pub const LONGEST: usize = 16777216;

// Takes records as long as all is legal.
#[tactic(auto, using(crate::proofs::Along::along_start, crate::proofs::Along::after, crate::proofs::Along::room))]
fn follow(c: Config, past: &mut Stamps, tape: &[u8]) -> Cursor
    requires { Accepted c × (length tape.now ≤ longest) × (past.old.last ≡ no_stamps) × (past.old.clock ≡ 32) }
    ensures tape_value { judged_of c (contents_of tape.now) ≡ halted_at c past.new.last past.new.clock (step_of tape.now result.at result.before).answer (contents_of tape.now).last }
    ensures halts { Halts c past.new.last past.new.clock (step_of tape.now result.at result.before).answer }
    ensures clock_bound { (31 < past.new.clock) × (past.new.clock ≤ 32 + 65535 * longest) }
{
    let mut p = Cursor { at: 0, before: 0 };
    while let Some(next) = tape_cursor::take(c, past, tape, p) {
        p = next;
    }
    p
}

// A command that is not legal. The rest of the tape is read for a refusal, which goes before it.
#[tactic(auto, using(crate::proofs::Refusals::refused_as, crate::proofs::Refusals::passed_as), unfolding(crate::specs::Halted::illegal_by))]
fn illegal(
    c: Config,
    past: &Stamps,
    command: Command,
    tape: &[u8],
) -> Result<Option<IllegalSlot>, JudgeError>
    requires { Accepted c × (legal_of c (by_stamps c past.now.last past.now.clock) command ≡ false) × (31 < past.now.clock) × (past.now.clock ≤ 32 + 65535 * longest) }
    ensures value { verdict_in result ≡ illegal_by c past.now.last past.now.clock command (contents_of tape.now).last }
    ensures slot_bound { (verdict_in result).slot < 2 ^ 40 }
    ensures from_1 { IfOk result (λ o. IfSome o (λ x. 1 ≤ x.slot)) }
{
    tape_scan::scan(tape)?;
    match violation::first(c, past, command) {
        Some(violation) => Ok(Some(IllegalSlot {
            slot: past.slot(),
            violation,
        })),
        // No legal command comes here.
        None => Ok(None),
    }
}

// A tape that is not too long.
#[tactic(auto, using(crate::proofs::Along::found_as), unfolding(crate::specs::Halted::halted_at))]
fn judged(c: Config, tape: &[u8]) -> Result<Option<IllegalSlot>, JudgeError>
    requires { Accepted c × (length tape.now ≤ longest) }
    ensures value { verdict_in result ≡ judged_of c (contents_of tape.now) }
    ensures slot_bound { (verdict_in result).slot < 2 ^ 40 }
    ensures from_1 { IfOk result (λ o. IfSome o (λ x. 1 ≤ x.slot)) }
{
    let mut past = Stamps::new();
    let p = follow(c, &mut past, tape);
    let found = tape_decoder::read_at(tape, p.at, p.before);
    let item = found.item;
    match item {
        // At a run no judge halts.
        Item::End | Item::Run(_) => Ok(None),
        Item::Command(command) => illegal(c, &past, command, tape),
        Item::Refused(why, _) => Err(JudgeError::Record(why)),
    }
}

// Judges a tape. No run counts more than 65,535 slots, and no record is shorter than a byte: so the slot of any tape that is short enough fits 40 bits.
#[tactic(auto, using(crate::proofs::Refusals::set_accepted), unfolding(crate::specs::Judge::judge_of))]
pub fn judge(
    cfg: u32,
    row: u32,
    refr: u32,
    tim: u32,
    tape: &[u8],
) -> Result<Option<IllegalSlot>, JudgeError>
    ensures value { verdict_in result ≡ judge_of cfg row refr tim tape.now }
    ensures slot_bound { (verdict_in result).slot < 2 ^ 40 }
    ensures from_1 { IfOk result (λ o. IfSome o (λ x. 1 ≤ x.slot)) }
{
    let config = config::configure(cfg, row, refr, tim)?;
    if LONGEST < tape.len() {
        return Err(JudgeError::TooLong);
    }
    judged(config, tape)
}

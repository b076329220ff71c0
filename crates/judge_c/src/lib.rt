// Owns the judge as a program in C calls it (document 02, (v); include/girmutsab.h): register words and a tape's bytes in, the verdict as one word of 64 bits out. Nothing is
// kept between calls.
#![tactic(auto)]

ghost use Rattle.std.specs.Prelude.{◌<◌, ◌^◌, ◌≡◌};
ghost use Rattle.judge.specs.Judge.{judge_of};
ghost use Rattle.judge.specs.Verdict.{verdict_in};
ghost use Rattle.judge_c.specs.Word.{word_of, Fits};

use judge::{IllegalSlot, JudgeError};

// An answer's word. Each of its parts has its place.
#[tactic(auto, unfolding(crate::specs::Word::word_of))]
fn word(answer: Result<Option<IllegalSlot>, JudgeError>) -> u64
    requires { (verdict_in answer).slot < 2 ^ 40 }
    ensures { (result ≡ word_of (verdict_in answer)) × Fits (verdict_in answer) }
{
    match answer {
        Ok(None) => 0,
        Ok(Some(IllegalSlot { slot, violation })) => {
            256 * violation.rule as u64 + 65536 * violation.bank as u64 + 16777216 * slot
        }
        Err(why) => why.number() as u64,
    }
}

// Judges a tape, `length` bytes from `tape` on in C; a null pointer with length 0 is an empty tape.
#[unsafe(no_mangle)]
pub extern "C" fn girmutsab_judge(cfg: u32, row: u32, refr: u32, tim: u32, tape: &[u8]) -> u64
    ensures value { result ≡ word_of (judge_of cfg row refr tim tape.now) }
    ensures fits { Fits (judge_of cfg row refr tim tape.now) }
{
    word(judge::judge(cfg, row, refr, tim, tape))
}

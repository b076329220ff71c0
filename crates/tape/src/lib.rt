// Owns the tape's format (document 02, (ii)): the bytes of a list of slots, what the reader answers, and what is promised of both.
#![tactic(auto)]

ghost use Rattle.std.specs.Prelude.{◌≡◌};
ghost use Rattle.tape.specs.Reading.{number_of};

use command::Command;

// Why a record is refused.
#[derive(Clone, Copy, Debug, PartialEq, Eq)]
pub enum Refusal {
    // 11: no record has this kind.
    Kind,
    // 12: the tape ends within the body.
    Cut,
    // 13: a run of no NOPs, or one after a run of fewer than 65,535.
    Run,
}

impl Refusal {
    // Its number in document 02's table.
    pub fn number(self) -> u8
        ensures { result ≡ number_of self }
    {
        match self {
            Refusal::Kind => 11,
            Refusal::Cut => 12,
            Refusal::Run => 13,
        }
    }
}

// What the reader finds at a place of a tape. Not an Option<Result<..>>: that needs a second enum, for a command and a run, and the definition (`Answer`) has these four cases.
#[derive(Clone, Copy)]
pub enum Item {
    // The tape has no more records.
    End,
    // A command that is not NOP.
    Command(Command),
    // A run of so many NOPs.
    Run(u16),
    // A refused record: why, and its first place.
    Refused(Refusal, usize),
}

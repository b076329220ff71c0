// Owns the refresh counters and their urgency (document 01, "A service slot"): the interval counter with its reload, the
// backlog, the level that a backlog stands for, and the Must run.
#![tactic(auto)]

ghost use Rattle.refresh.specs.Counting.{start_of, expires_of, raised_of, tick_of, refreshed_of, sound_counters};
ghost use Rattle.refresh.specs.Urgency.{level_of, run_of};
ghost use Rattle.std.specs.Prelude.{◌≡◌};

// The two counters. A sound record has an interval of 1 at least; 0 is treated as 1.
#[derive(Clone, Copy)]
pub struct Counters {
    pub interval: u16,
    pub backlog: u8,
}

// How urgent a refresh is. Source documents 000 and 001 name all but Clear, at which none is owed.
#[derive(Clone, Copy, PartialEq, Eq)]
pub enum Level {
    Clear,
    May,
    Release,
    Need,
    Must,
}

// A backlog with one refresh more, 15 at most.
fn raised(backlog: u8) -> u8
    ensures { result ≡ raised_of backlog }
{
    if backlog < 15 {
        return backlog + 1;
    }
    15
}

impl Counters {
    // As the first service slot finds them.
    #[tactic(auto, unfolding(crate::specs::Counting::start_of))]
    pub fn start(rr: u16) -> Counters
        ensures { result ≡ start_of rr }
    {
        Counters {
            interval: rr,
            backlog: 0,
        }
    }

    // Does the next service slot end an interval?
    fn expires(self) -> bool
        ensures { result ≡ expires_of self }
    {
        self.interval <= 1
    }

    // One service slot.
    #[tactic(auto, unfolding(crate::specs::Counting::tick_of))]
    pub fn tick(self, rr: u16) -> Counters
        ensures { result ≡ tick_of self rr }
    {
        if self.expires() {
            return Counters {
                interval: rr,
                backlog: raised(self.backlog),
            };
        }
        Counters {
            interval: self.interval - 1,
            backlog: self.backlog,
        }
    }

    // A service REFR is sent.
    #[tactic(auto, unfolding(crate::specs::Counting::refreshed_of))]
    pub fn refreshed(self) -> Counters
        ensures { result ≡ refreshed_of self }
    {
        if self.backlog == 0 {
            return self;
        }
        Counters {
            interval: self.interval,
            backlog: self.backlog - 1,
        }
    }

    // Soundness, their part of the test for number 9: the interval is 1 to RR, the backlog 15 at most.
    #[tactic(auto, unfolding(crate::specs::Counting::sound_counters))]
    pub fn sound(self, rr: u16) -> bool
        ensures { result ≡ sound_counters rr self }
    {
        1 <= self.interval && self.interval <= rr && self.backlog <= 15
    }
}

// The urgency of a backlog.
#[tactic(auto, unfolding(crate::specs::Urgency::level_of))]
pub fn urgency(backlog: u8) -> Level
    ensures { result ≡ level_of backlog }
{
    match backlog {
        0 => Level::Clear,
        1..=3 => Level::May,
        4..=7 => Level::Release,
        8..=11 => Level::Need,
        12..=15 => Level::Must,
        // No sound record has a backlog above 15.
        _ => Level::Must,
    }
}

// Is a Must run on, after a choice at this level, where `running` says whether one was on before?
pub fn run_after(running: bool, level: Level) -> bool
    ensures { result ≡ run_of running level }
{
    match level {
        Level::Clear | Level::May | Level::Release => false,
        Level::Need => running,
        Level::Must => true,
    }
}

// Owns the rules of a slot (document 01, "Start" and "A service slot"): the action under way and when it is sound, the plan of its next slot, rules 1
// to 6 of the choice, and what a report says. It has no code; `actions`, `choice`, `service` and `turn` have it.

// The action under way. The first five are the initialisation. All counts and places are of one width, so that an action has no padding.
#![tactic(auto)]

#[derive(Clone, Copy)]
pub enum Action {
    // So many slots of NOP are left of the pause.
    PowerUp(u16),
    // The initialisation's DEAC comes next.
    InitPrecharge,
    // So many of its REFR are left.
    InitRefresh(u16),
    // Its MRS comes next.
    InitMode,
    // One last NOP.
    InitSettle,
    // No action: a choice is made in the next slot.
    Idle,
    // The request at this place of the queue: PRE, ACT, or READ or WRT comes next.
    Access(u16),
    // The READ for the request at this place was sent: its halfword is on the bus in so many slots.
    CasLatency(u16, u16),
    // The slot after a read's halfword.
    Turnaround,
    // A refresh: its DEAC comes next.
    PrechargeAll,
    // A refresh: its REFR comes next.
    Refresh,
    // So many slots are left of a refresh.
    RefreshCycle(u16),
}

// The action under way, and is a Must run on?
#[derive(Clone, Copy)]
pub struct Control {
    pub action: Action,
    pub must: bool,
}

// What a slot reports: a read with its number and halfword, or a write with its number. Document 01's three cases: an Option would nest a second enum.
#[derive(Clone, Copy)]
pub enum Report {
    Nothing,
    Read(u32, u16),
    Write(u32),
}

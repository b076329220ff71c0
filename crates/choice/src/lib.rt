// Owns the code of the choice (document 01, "A service slot", rules 1 to 6; `plan` has the rules).
#![tactic(auto)]

ghost use Rattle.std.specs.Prelude.{ℕ, ◌≡◌, List};
ghost use Rattle.device.specs.View.{all_closed};
ghost use Rattle.ages.specs.Ages.{open_rows};
ghost use Rattle.queue.specs.Places.{held_of};
ghost use Rattle.queue.specs.Oldest.{oldest_of};
ghost use Rattle.plan.specs.Choice.{idle_refresh, rules_of};
ghost use Rattle.choice.specs.Rules.{from_rule5, from_rule3, must_of, action_of};

use ages::Past;
use plan::Action;
use queue::{Kind, Queue};
use refresh::Level;

// Rule 5, where `closed` says whether all banks are closed.
fn idle_refresh(level: Level, closed: bool) -> bool
    ensures { result ≡ idle_refresh level closed }
{
    match level {
        Level::May => closed,
        Level::Release => true,
        Level::Clear | Level::Need | Level::Must => false,
    }
}

// Rules 5 and 6.
#[tactic(auto, unfolding(crate::specs::Rules::from_rule5))]
fn from_rule5(level: Level, closed: bool) -> Action
    ensures { result ≡ from_rule5 level closed }
{
    if idle_refresh(level, closed) {
        return Action::PrechargeAll;
    }
    Action::Idle
}

// Rules 3 to 6.
#[tactic(auto, unfolding(crate::specs::Rules::from_rule3))]
fn from_rule3(level: Level, queue: &Queue, past: &Past) -> Action
    ensures { (rows : List ℕ) → result ≡ from_rule3 level (oldest_of Kind.Write (held_of queue.now)) (all_closed (open_rows past.now.opened rows)) }
{
    if level == Level::Need {
        return Action::PrechargeAll;
    }
    match search::oldest(queue, Kind::Write) {
        Some(i) => Action::Access(i),
        None => from_rule5(level, past.all_closed()),
    }
}

// Rules 1 to 6, from the Must run as of this choice and the backlog's level. The queue is searched only where a rule asks for it.
#[tactic(auto, unfolding(plan::specs::Choice::rules_of, crate::specs::Rules::from_rule3, crate::specs::Rules::from_rule5))]
fn choose(run: bool, level: Level, queue: &Queue, past: &Past) -> Action
    ensures { (rows : List ℕ) → result ≡ rules_of run level (oldest_of Kind.Read (held_of queue.now)) (oldest_of Kind.Write (held_of queue.now)) (all_closed (open_rows past.now.opened rows)) }
{
    if run {
        return Action::PrechargeAll;
    }
    match search::oldest(queue, Kind::Read) {
        Some(i) => Action::Access(i),
        None => from_rule3(level, queue, past),
    }
}

// Is a Must run on after the slot's choice? Where an action is under way no choice is made.
#[tactic(auto, unfolding(crate::specs::Rules::must_of))]
pub fn must_after(action: Action, must: bool, backlog: u8) -> bool
    ensures { result ≡ must_of action must backlog }
{
    if actions::is_idle(action) {
        return refresh::run_after(must, refresh::urgency(backlog));
    }
    must
}

// The action of a slot: the one under way goes on; if there is none, a choice is made. `run` says whether a Must run is on after it.
#[tactic(auto, unfolding(crate::specs::Rules::action_of))]
pub fn current(action: Action, run: bool, backlog: u8, queue: &Queue, past: &Past) -> Action
    ensures { (rows : List ℕ) → result ≡ action_of action run backlog queue.now (all_closed (open_rows past.now.opened rows)) }
{
    if actions::is_idle(action) {
        return choose(run, refresh::urgency(backlog), queue, past);
    }
    action
}

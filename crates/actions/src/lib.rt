// Owns what a slot asks of the action under way (`plan` has it): whether it is a service slot, whether a choice is due, whose request it is; and the
// first action.
#![tactic(auto)]

ghost use Rattle.std.specs.Prelude.{◌≡◌, ◌≤◌};
ghost use Rattle.plan.specs.Actions.{is_idle, in_service, under_way, first_action};

use config::Config;
use plan::Action;

// Is the next slot a service slot? The refresh counters stand still before the first one.
pub fn is_in_service(action: Action) -> bool
    ensures { result ≡ in_service action }
{
    !matches!(
        action,
        Action::PowerUp(_)
            | Action::InitPrecharge
            | Action::InitRefresh(_)
            | Action::InitMode
            | Action::InitSettle
    )
}

// Is a choice due?
pub fn is_idle(action: Action) -> bool
    ensures { result ≡ is_idle action }
{
    matches!(action, Action::Idle)
}

// The place of the request under way, 0 and no None where there is none: `under_way` says 0, and plan_of and queue_after take that number.
pub fn place(action: Action) -> u16
    ensures { result ≡ under_way action }
{
    match action {
        Action::Access(i) | Action::CasLatency(i, _) => i,
        _ => 0,
    }
}

// As a configuration leaves it: a pause of 8 x RR slots.
pub fn first_action(c: Config) -> Action
    requires { c.rr ≤ 8191 }
    ensures { result ≡ first_action c }
{
    Action::PowerUp(8 * c.rr)
}

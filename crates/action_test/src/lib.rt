// Owns the test whether the action under way is sound, its part of the test for number 9 (`plan` has the definition; docs/SOUNDNESS.md).
#![tactic(auto)]

ghost use Rattle.std.specs.Prelude.{ℕ, ◌≡◌, List};
ghost use Rattle.device.specs.View.{all_closed};
ghost use Rattle.ages.specs.Ages.{open_rows};
ghost use Rattle.plan.specs.Actions.{counts, sound_action};

use ages::Past;
use config::Config;
use plan::Action;

// Is a count 1 to `most`?
fn is_counting(n: u32, most: u32) -> bool
    ensures { result ≡ counts n most }
{
    1 <= n && n <= most
}

// Soundness of the action under way, its part of the test for number 9 (docs/SOUNDNESS.md); `count` requests are queued.
#[tactic(auto, unfolding(plan::specs::Actions::sound_action))]
pub fn action_sound(config: Config, past: &Past, count: u32, action: Action) -> bool
    ensures { (rows : List ℕ) → result ≡ sound_action config past.now.programmed (all_closed (open_rows past.now.opened rows)) count action }
{
    let programmed = past.programmed;
    match action {
        Action::PowerUp(n) => is_counting(n as u32, 8 * (config.rr as u32)),
        Action::InitPrecharge => true,
        Action::InitRefresh(n) => past.all_closed() && is_counting(n as u32, 8),
        Action::InitMode => past.all_closed(),
        Action::InitSettle => programmed,
        Action::Idle => programmed,
        Action::Access(i) => programmed && (i as u32) < count,
        Action::CasLatency(i, left) => {
            programmed && (i as u32) < count && is_counting(left as u32, config.latency as u32)
        }
        Action::Turnaround => programmed,
        Action::PrechargeAll => programmed,
        Action::Refresh => programmed && past.all_closed(),
        Action::RefreshCycle(left) => programmed && 1 <= left && left < config.rfc as u16,
    }
}

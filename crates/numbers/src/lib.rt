// Owns the refusals that a machine's parts decide: Unsound, with the soundness behind it, and Blank; and for a request four more. The tests look at parts of the
// machine, so that the machine is not copied for them; of the past only at the open flags and at the mode: `any_ages_and_rows` of proofs/Laws.antt says so.
#![tactic(auto)]

ghost use Rattle.std.specs.Prelude.{◌≡◌, Bool};
ghost use Rattle.refusal.specs.Refused.{number_in};
ghost use Rattle.config.specs.Accepted.{accepted_of};
ghost use Rattle.plan.specs.Actions.{control_of};
ghost use Rattle.numbers.specs.Sound.{state_by};
ghost use Rattle.numbers.specs.Numbers.{record_number_by, room_number_of, request_number_by};

use ages::Past;
use config::Config;
use plan::Action;
use refresh::Counters;
use refusal::Refusal;

// The most requests that are ever accepted.
const LAST: u32 = 4294967295;

// Soundness of all but the configuration.
#[tactic(auto, unfolding(crate::specs::Sound::state_by))]
fn state_sound(config: Config, past: &Past, counters: Counters, action: Action, count: u32) -> bool
    ensures { (must : Bool) → result ≡ state_by config past.now counters (control_of action must) count }
{
    counters.sound(config.rr)
        && count <= 8
        && action_test::action_sound(config, past, count, action)
}

// What every call tests first: is the record sound (docs/SOUNDNESS.md), and configured? The calls test the configuration in their own bodies, where the compiler
// can leave the test out of a program whose configuration is a constant.
#[tactic(auto, using(crate::proofs::Laws::number_blank, crate::proofs::Laws::number_parts))]
pub fn check_record(
    configured: bool,
    config_accepted: bool,
    config: Config,
    past: &Past,
    counters: Counters,
    action: Action,
    count: u32,
) -> Result<(), Refusal>
    requires { config_accepted ≡ accepted_of config }
    ensures { (must : Bool) → number_in result ≡ record_number_by configured config past.now counters (control_of action must) count }
{
    if !configured {
        return Err(Refusal::Blank);
    }
    if !config_accepted {
        return Err(Refusal::Unsound);
    }
    if state_sound(config, past, counters, action, count) {
        return Ok(());
    }
    Err(Refusal::Unsound)
}

// Is there room in the queue, and then a number, for one request more?
#[tactic(auto, unfolding(crate::specs::Numbers::room_number_of))]
fn check_room(count: u32, accepted: u32) -> Result<(), Refusal>
    ensures { number_in result ≡ room_number_of count accepted }
{
    if 8 <= count {
        return Err(Refusal::QueueFull);
    }
    if LAST <= accepted {
        return Err(Refusal::NumbersUsedUp);
    }
    Ok(())
}

// What a request tests: the record, then the address, then the room.
#[tactic(auto, using(crate::proofs::Laws::record_facts), unfolding(crate::specs::Numbers::request_number_by))]
pub fn check_request(
    configured: bool,
    config_accepted: bool,
    config: Config,
    past: &Past,
    counters: Counters,
    action: Action,
    count: u32,
    accepted: u32,
    address: u32,
) -> Result<(), Refusal>
    requires { config_accepted ≡ accepted_of config }
    ensures { (must : Bool) → number_in result ≡ request_number_by configured config past.now counters (control_of action must) count accepted address }
{
    check_record(
        configured,
        config_accepted,
        config,
        past,
        counters,
        action,
        count,
    )?;
    address::check_address(config.geometry, address)?;
    check_room(count, accepted)
}

// Owns many slots on the machine's parts, one after the other (document 02, (i)): the parts are lent, and changed in place, and the words of the commands and
// reports are stored one slot after the other.
#![tactic(auto)]

ghost use Rattle.std.specs.Prelude.{◌≤◌, ◌<◌, ◌≡◌, length};
ghost use Rattle.config.specs.Accepted.{Shaped};
ghost use Rattle.batch.specs.Run.{gathered, filled_of};

use ages::Past;
use config::Config;
use plan::Control;
use queue::Queue;
use refresh::Counters;

// So many slots; `bus` has the halfword that the bus carries in each.
#[tactic(auto, using(crate::proofs::Loop::onwards, crate::proofs::Loop::onwards_all, crate::proofs::Loop::onwards_next, crate::proofs::Loop::onwards_end))]
pub fn run(
    slots: usize,
    c: Config,
    past: &mut Past,
    counters: &mut Counters,
    control: &mut Control,
    queue: &mut Queue,
    bus: &[u16],
    commands: &mut [u64],
    reports: &mut [u64],
)
    requires shaped { 0 < slots → Shaped c.geometry }
    requires slots_in_bounds { (slots ≤ length bus.now) × (slots ≤ length commands.old) × (slots ≤ length reports.old) }
    ensures { gathered past.new counters.new control.new queue.new commands.new reports.new ≡ filled_of slots c past.old counters.old control.old queue.old bus.now commands.old reports.old }
{
    for i in 0..slots {
        let turned = turn::step(c, past, counters, control, queue, bus[i]);
        commands[i] = turned.sent;
        reports[i] = turned.told;
    }
}

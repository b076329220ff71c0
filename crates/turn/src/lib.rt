// Owns one slot on the machine's parts (document 01, "Start" and "A service slot"; `plan` has the rules): the counters, the choice, the plan of
// the action, the queue and the past after it. The parts are lent, and changed in place.
#![tactic(auto)]

ghost use Rattle.std.specs.Prelude.{◌≡◌, length};
ghost use Rattle.config.specs.Accepted.{Shaped};
ghost use Rattle.plan.specs.Actions.{under_way};
ghost use Rattle.plan.specs.Plan.{queue_after};
ghost use Rattle.plan.specs.Slot.{ticked_of};
ghost use Rattle.packing.specs.Packing.{command_word, report_word};
ghost use Rattle.turn.specs.Parts.{gathered, stepped_of, refused_of, turned_of};

use ages::Past;
use command::Command;
use config::Config;
use plan::{Action, Control, Report};
use queue::Queue;
use refresh::Counters;

// What a slot gives, beside what it changes in place: its command and report, and their words (docs/PACKING.md).
#[derive(Clone, Copy)]
pub struct Turned {
    pub command: Command,
    pub report: Report,
    pub sent: u64,
    pub told: u64,
}

// How long the past's arrays are, which a proof knows of a value, and not of what is lent. It does nothing.
fn lengths(past: Past)
    ensures { (length past.ages ≡ 16) × (length past.opened ≡ 4) × (length past.rows ≡ 4) }
{}

// The slot's counters: the interval falls in a service slot.
#[tactic(auto, unfolding(plan::specs::Slot::ticked_of))]
fn ticked(c: Config, n: Counters, action: Action) -> Counters
    ensures { result ≡ ticked_of c n action }
{
    if actions::is_in_service(action) {
        return n.tick(c.rr);
    }
    n
}

// The request of an action may leave the queue.
#[tactic(auto, unfolding(plan::specs::Plan::queue_after))]
fn dequeue(queue: &mut Queue, action: Action, leaves: bool)
    ensures { queue.new ≡ queue_after queue.old (under_way action) leaves }
{
    if leaves {
        queue.remove(actions::place(action));
    }
}

// One slot; `bus` is the halfword that the bus carries.
#[tactic(auto, using(crate::proofs::Laws::step_is), unfolding(aging::specs::Noted::elapsed_of))]
pub fn step(
    c: Config,
    past: &mut Past,
    counters: &mut Counters,
    control: &mut Control,
    queue: &mut Queue,
    bus: u16,
) -> Turned
    requires { Shaped c.geometry }
    ensures parts { gathered past.new counters.new control.new queue.new result ≡ stepped_of c past.old counters.old control.old queue.old bus }
    ensures words { (result.sent ≡ command_word result.command) × (result.told ≡ report_word result.report) }
{
    lengths(*past);
    let ticked = ticked(c, *counters, control.action);
    let run = choice::must_after(control.action, control.must, ticked.backlog);
    let current = choice::current(control.action, run, ticked.backlog, queue, past);
    let carried = service::serve(c, past, queue, current, bus);
    // The words here, where the compiler still knows which command it is; a caller that does not use them does not pay for them.
    let sent = packing::pack_command(carried.command);
    let told = packing::pack_report(carried.report);
    *counters = service::counters_after(ticked, carried.refreshes);
    dequeue(queue, current, carried.leaves);
    aging::elapse(past);
    *control = Control {
        action: carried.action,
        must: run,
    };
    Turned {
        command: carried.command,
        report: carried.report,
        sent,
        told,
    }
}

// What a refused slot gives.
fn refused() -> Turned
    ensures { result ≡ refused_of }
{
    Turned {
        command: Command::Nop,
        report: Report::Nothing,
        sent: 0,
        told: 0,
    }
}

// One slot where the number is 0; any other number refuses it: a NOP that reports nothing, and nothing changes. A number and no Refusal: this takes every one,
// as `turned_of` does.
#[tactic(auto, unfolding(crate::specs::Parts::turned_of, packing::specs::Packing::word_of, packing::specs::Packing::command_word, packing::specs::Packing::report_word))]
pub fn turn(
    number: u8,
    c: Config,
    past: &mut Past,
    counters: &mut Counters,
    control: &mut Control,
    queue: &mut Queue,
    bus: u16,
) -> Turned
    requires { number ≡ 0 → Shaped c.geometry }
    ensures parts { gathered past.new counters.new control.new queue.new result ≡ turned_of number c past.old counters.old control.old queue.old bus }
    ensures words { (result.sent ≡ command_word result.command) × (result.told ≡ report_word result.report) }
{
    if number != 0 {
        return refused();
    }
    step(c, past, counters, control, queue, bus)
}

// Owns the machine and the calls on it: configuration, the request, the slot, many slots, and the backlog.
#![tactic(auto)]

ghost use Rattle.std.specs.Prelude.{◌≡◌, ◌≤◌, ◌<◌, cond, eqb, IfOk};
ghost use Rattle.refusal.specs.Refused.{number_in};
ghost use Rattle.config.specs.Answer.{setting_in};
ghost use Rattle.numbers.specs.Numbers.{last_number};
ghost use Rattle.sequencer.specs.Machine.{machine_with, blank_of, machine_of};
ghost use Rattle.sequencer.specs.Answers.{configured_in, requested_in, slot_in, slots_in, reading_in};
ghost use Rattle.sequencer.specs.Calls.{
  configured_by,
  configure_of,
  request_number_of,
  halfword_for,
  queued_request,
  enqueued_of,
  request_of,
  slot_of,
  backlog_of,
};
ghost use Rattle.sequencer.specs.Batch.{room_of, gathered, many_slots_of};

use ages::Past;
use command::Command;
use config::Config;
use plan::{Action, Control, Report};
use queue::{Kind, Queue, Request};
use refresh::Counters;
use refusal::Refusal;

// The whole machine. One that is not configured is blank.
#[derive(Clone, Copy)]
pub struct Machine {
    pub queue: Queue,
    pub past: Past,
    pub config: Config,
    pub counters: Counters,
    pub control: Control,
    // With the configuration beside it, and no Option: `machine_with` names both, and the blank machine has `no_config`.
    pub configured: bool,
    // How many requests have been accepted.
    pub accepted: u32,
}

// A call's answer, and the machine after it: the one before it where a request or many slots are refused, and the blank one where a configuration is.
#[derive(Clone, Copy)]
pub struct Answered<T> {
    pub machine: Machine,
    pub answer: Result<T, Refusal>,
}

// One slot: its command and report, and the machine after it. A refused one carries NOP, and reports nothing.
#[derive(Clone, Copy)]
pub struct Slot {
    pub machine: Machine,
    pub answer: Result<(), Refusal>,
    pub command: Command,
    pub report: Report,
}

// The machine that an accepted configuration gives.
#[tactic(auto, unfolding(crate::specs::Machine::machine_of))]
fn started_with(config: Config) -> Machine
    requires { config.rr ≤ 8191 }
    ensures { result ≡ machine_of config }
{
    let past = Past::fresh();
    let counters = Counters::start(config.rr);
    let action = actions::first_action(config);
    let control = Control {
        action,
        must: false,
    };
    let queue = Queue::empty();
    Machine {
        configured: true,
        config,
        past,
        counters,
        control,
        queue,
        accepted: 0,
    }
}

// The machine that a configuration gives, the blank one where it is refused.
#[tactic(auto, unfolding(crate::specs::Calls::configured_by))]
fn configured_by(configuration: Result<Config, Refusal>) -> Answered<()>
    requires { IfOk configuration (λ config. config.rr ≤ 8191) }
    ensures { configured_in result ≡ configured_by (setting_in configuration) }
{
    match configuration {
        Ok(config) => {
            let machine = started_with(config);
            Answered {
                machine,
                answer: Ok(()),
            }
        }
        Err(refusal) => {
            let machine = Machine::blank();
            Answered {
                machine,
                answer: Err(refusal),
            }
        }
    }
}

// How many slots a call runs, by what the tests said and the lengths of its arrays.
fn room(tested: Result<(), Refusal>, bus: usize, commands: usize, reports: usize) -> usize
    ensures { result ≡ cond (eqb (number_in tested) 0) (room_of bus commands reports) 0 }
{
    match tested {
        Ok(()) => bus.min(commands.min(reports)),
        Err(_) => 0,
    }
}

// The halfword that a request keeps.
fn halfword_for(kind: Kind, given: u16) -> u16
    ensures { result ≡ halfword_for kind given }
{
    match kind {
        Kind::Read => 0,
        Kind::Write => given,
    }
}

impl Machine {
    // The machine that four register words give.
    #[tactic(auto, using(config::proofs::Laws::accepted), unfolding(crate::specs::Calls::configure_of))]
    pub fn configure(cfg: u32, row: u32, refr: u32, tim: u32) -> Answered<()>
        ensures { configured_in result ≡ configure_of cfg row refr tim }
    {
        configured_by(config::configure(cfg, row, refr, tim))
    }

    // The machine that a refused configuration gives.
    #[tactic(auto, unfolding(crate::specs::Machine::blank_of))]
    pub fn blank() -> Machine
        ensures { result ≡ blank_of }
    {
        let config = config::none();
        let past = Past::fresh();
        let counters = Counters::start(0);
        let control = Control {
            action: Action::Idle,
            must: false,
        };
        let queue = Queue::empty();
        Machine {
            configured: false,
            config,
            past,
            counters,
            control,
            queue,
            accepted: 0,
        }
    }

    // The request as it is queued, with the next number.
    #[tactic(auto, unfolding(crate::specs::Calls::queued_request))]
    fn queued_request(self, kind: Kind, address: u32, halfword: u16) -> Request
        requires { self.accepted < last_number }
        ensures { result ≡ queued_request self kind address halfword }
    {
        Request {
            number: self.accepted + 1,
            address,
            halfword: halfword_for(kind, halfword),
            kind,
        }
    }

    // The machine with one request more.
    #[tactic(auto, unfolding(crate::specs::Calls::enqueued_of))]
    fn accept(self, request: Request) -> Answered<u32>
        ensures { requested_in result ≡ enqueued_of self request }
    {
        // A queue of its own, which the compiler can keep apart from the rest of the machine.
        let mut queue = self.queue;
        queue.accept(request);
        Answered {
            machine: Machine {
                queue,
                accepted: request.number,
                ..self
            },
            answer: Ok(request.number),
        }
    }

    // A request, with what the tests said.
    #[tactic(auto, using(crate::proofs::Laws::request_facts), unfolding(crate::specs::Calls::request_of))]
    fn answered(
        self,
        tested: Result<(), Refusal>,
        kind: Kind,
        address: u32,
        halfword: u16,
    ) -> Answered<u32>
        requires { number_in tested ≡ request_number_of self address }
        ensures { requested_in result ≡ request_of self kind address halfword }
    {
        match tested {
            Ok(()) => {
                let request = self.queued_request(kind, address, halfword);
                self.accept(request)
            }
            Err(refusal) => Answered {
                machine: self,
                answer: Err(refusal),
            },
        }
    }

    // Every call tests the record first, in its own body and on a past of its own. As one method on the machine lent, the test keeps the machine in memory, and a slot
    // with a reading takes twice as long (docs/PERFORMANCE.md).

    // Hands in a request of either kind; a halfword given with a read is ignored.
    pub fn request(self, kind: Kind, address: u32, halfword: u16) -> Answered<u32>
        ensures { requested_in result ≡ request_of self kind address halfword }
    {
        let past = self.past;
        let tested = numbers::check_request(
            self.configured,
            config::accepted(self.config),
            self.config,
            &past,
            self.counters,
            self.control.action,
            self.queue.count,
            self.accepted,
            address,
        );
        self.answered(tested, kind, address, halfword)
    }

    // One slot; `bus` is the halfword that the bus carries.
    #[tactic(auto, using(crate::proofs::Laws::slot_is, crate::proofs::Sound::record_facts))]
    pub fn slot(self, bus: u16) -> Slot
        ensures { slot_in result ≡ slot_of self bus }
    {
        // The parts as locals, and the machine built once, at the end, for a refused slot too: lent as its fields, the whole machine would be copied.
        let mut past = self.past;
        let mut counters = self.counters;
        let mut control = self.control;
        let mut queue = self.queue;
        let tested = numbers::check_record(
            self.configured,
            config::accepted(self.config),
            self.config,
            &past,
            counters,
            control.action,
            queue.count,
        );
        let turned = turn::turn(
            refusal::number_in(&tested),
            self.config,
            &mut past,
            &mut counters,
            &mut control,
            &mut queue,
            bus,
        );
        Slot {
            machine: Machine {
                queue,
                past,
                counters,
                control,
                ..self
            },
            answer: tested,
            command: turned.command,
            report: turned.report,
        }
    }

    // Runs as many slots as the shortest of the three arrays has places; `bus` has the halfword that the bus carries in each. The words of their commands and
    // reports (docs/PACKING.md) are stored from the first place on, and the places beyond the count stay. Refused, no slot is run, and nothing changes.
    #[tactic(auto, using(crate::proofs::Batch::slots_is, crate::proofs::Batch::room_shows, crate::proofs::Sound::record_facts))]
    pub fn slots(self, bus: &[u16], commands: &mut [u64], reports: &mut [u64]) -> Answered<usize>
        ensures { gathered (slots_in result) commands.new reports.new ≡ many_slots_of self bus.now commands.old reports.old }
    {
        let mut past = self.past;
        let mut counters = self.counters;
        let mut control = self.control;
        let mut queue = self.queue;
        let tested = numbers::check_record(
            self.configured,
            config::accepted(self.config),
            self.config,
            &past,
            counters,
            control.action,
            queue.count,
        );
        let count = room(tested, bus.len(), commands.len(), reports.len());
        batch::run(
            count,
            self.config,
            &mut past,
            &mut counters,
            &mut control,
            &mut queue,
            bus,
            commands,
            reports,
        );
        let machine = Machine {
            queue,
            past,
            counters,
            control,
            ..self
        };
        Answered {
            machine,
            answer: tested.map(|()| count),
        }
    }

    // How many refreshes are owed.
    pub fn backlog(self) -> Result<u8, Refusal>
        ensures { reading_in result ≡ backlog_of self }
    {
        let counters = self.counters;
        let past = self.past;
        numbers::check_record(
            self.configured,
            config::accepted(self.config),
            self.config,
            &past,
            counters,
            self.control.action,
            self.queue.count,
        )?;
        Ok(counters.backlog)
    }
}

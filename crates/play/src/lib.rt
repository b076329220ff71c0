// Owns a run of a script: its machine and all that waits, and what each line does to it. Written are the lines that REPLAY.md fixes, or the tape of the
// slots (TAPES.md).
#![tactic(auto)]

ghost use Rattle.std.specs.Prelude.{◌≡◌, ◌≤◌, ◌+◌, ◌%◌, length};
ghost use Rattle.script.specs.Line.{no_line};
ghost use Rattle.play.specs.Run.{start_of, over_of};

use calls::Played;
use output::Output;
use packing::pack_command;
use queue::Kind;
use refusal::{Refusal, number_in};
use script::{Call, Line, NUMBERS};
use sequencer::{Answered, Machine};

// What is written.
#[derive(Clone, Copy)]
pub enum Mode {
    Lines,
    Tape,
}

#[derive(Clone, Copy)]
pub struct Run {
    pub machine: Machine,
    // The line under way, and its number, counted from 1.
    pub line: Line,
    pub number: u64,
    // How many halfwords wait for the next call for many slots.
    pub halfwords: usize,
    // Is there nothing more to read?
    pub over: bool,
    pub mode: Mode,
    // Has a configuration been accepted? With it the tape begins.
    pub begun: bool,
    // How many NOPs at the tape's end still wait for their record.
    pub pending: u16,
}

#[tactic(auto, unfolding(crate::specs::Run::start_of))]
pub fn start(mode: Mode) -> Run
    ensures { result ≡ start_of mode }
{
    Run {
        machine: Machine::blank(),
        line: Line::empty(),
        number: 1,
        halfwords: 0,
        over: false,
        mode,
        begun: false,
        pending: 0,
    }
}

// What a recording has to say to a person, on standard error.
fn tell(rt: &impl Eprint, words: &str) {
    let _ = rt.eprint(words);
}

fn tell_line(rt: &impl Eprint, line: u64) {
    let _ = eprint!(rt; "record: line {line}");
}

fn tell_no_call(rt: &impl Eprint, line: u64) {
    tell_line(rt, line);
    tell(rt, " is no call and is passed over\n");
}

fn tell_refused(rt: &impl Eprint, line: u64, refusal: Refusal) {
    tell_line(rt, line);
    let number = refusal.number();
    let _ = eprint!(rt; ": the configuration is refused with number {number}");
    tell(rt, "; slots are refused until another is accepted\n");
}

fn tell_second(rt: &impl Eprint, line: u64) {
    tell_line(rt, line);
    tell(
        rt,
        " configures the machine again: the tape ends before it\n",
    );
}

fn tell_empty(rt: &impl Eprint) {
    tell(
        rt,
        "record: no configuration is accepted: the tape is empty\n",
    );
}

// Puts the first `count` numbers behind the halfwords that wait, and answers how many wait then.
fn append(bus: &mut [u16], waiting: usize, given: &[u32; NUMBERS], count: usize) -> usize
    requires { waiting ≤ length bus.old }
{
    let count = count.min(NUMBERS).min(bus.len() - waiting);
    let end = waiting + count;
    for (place, &number) in bus[waiting..end].iter_mut().zip(given) {
        *place = (number % 65536) as u16;
    }
    end
}

fn zeros() -> [u64; 4096]
    ensures { 4096 ≡ length result }
{
    [0; 4096]
}

impl Run {
    // Nothing more is read.
    #[tactic(auto, unfolding(crate::specs::Run::over_of))]
    pub fn stop(&mut self)
        ensures { self.new ≡ over_of self.old }
    {
        self.over = true;
    }

    // After a call that has one line of output.
    fn answered(&mut self, rt: &(impl Print + Eprint), played: Played, output: &mut Output)
        ensures len { length output.new.buffer.now ≡ length output.old.buffer.now }
        ensures lent { output.new.buffer.ghost_name ≡ output.old.buffer.ghost_name }
    {
        self.machine = played.machine;
        match self.mode {
            Mode::Lines => output.say(rt, played.text),
            Mode::Tape => {}
        }
    }

    fn wrong(&mut self, rt: &(impl Print + Eprint), output: &mut Output)
        ensures len { length output.new.buffer.now ≡ length output.old.buffer.now }
        ensures lent { output.new.buffer.ghost_name ≡ output.old.buffer.ghost_name }
    {
        match self.mode {
            Mode::Lines => self.answered(rt, calls::wrong(self.machine, self.number), output),
            Mode::Tape => tell_no_call(rt, self.number),
        }
    }

    // A configuration's answer, for a tape: the first that is accepted begins it, and the second ends it.
    fn begin(&mut self, rt: &impl Eprint, configured: Answered<()>) {
        match configured.answer {
            Err(refusal) => {
                tell_refused(rt, self.number, refusal);
                self.machine = configured.machine;
            }
            Ok(()) if self.begun => {
                tell_second(rt, self.number);
                self.stop();
            }
            Ok(()) => {
                self.machine = configured.machine;
                self.begun = true;
            }
        }
    }

    fn configure(
        &mut self,
        rt: &(impl Print + Eprint),
        cfg: u32,
        row: u32,
        refr: u32,
        tim: u32,
        output: &mut Output,
    )
        ensures len { length output.new.buffer.now ≡ length output.old.buffer.now }
        ensures lent { output.new.buffer.ghost_name ≡ output.old.buffer.ghost_name }
    {
        match self.mode {
            Mode::Lines => self.answered(rt, calls::configure(cfg, row, refr, tim), output),
            Mode::Tape => self.begin(rt, Machine::configure(cfg, row, refr, tim)),
        }
    }

    // Goes on with the tape by the slots of a row of words.
    fn taped(&mut self, rt: &(impl Print + Eprint), words: &[u64], output: &mut Output)
        ensures len { length output.new.buffer.now ≡ length output.old.buffer.now }
        ensures lent { output.new.buffer.ghost_name ≡ output.old.buffer.ghost_name }
    {
        self.pending = recording::add(rt, output, self.pending, words);
    }

    // A slot, for a tape. A refused one is none.
    fn taped_slot(&mut self, rt: &(impl Print + Eprint), carried: u16, output: &mut Output)
        ensures len { length output.new.buffer.now ≡ length output.old.buffer.now }
        ensures lent { output.new.buffer.ghost_name ≡ output.old.buffer.ghost_name }
    {
        let slot = self.machine.slot(carried);
        if slot.answer.is_err() {
            return;
        }
        self.machine = slot.machine;
        self.taped(rt, &[pack_command(slot.command)], output);
    }

    fn slot(&mut self, rt: &(impl Print + Eprint), carried: u16, output: &mut Output)
        ensures len { length output.new.buffer.now ≡ length output.old.buffer.now }
        ensures lent { output.new.buffer.ghost_name ≡ output.old.buffer.ghost_name }
    {
        match self.mode {
            Mode::Lines => self.answered(rt, calls::slot(self.machine, carried), output),
            Mode::Tape => self.taped_slot(rt, carried, output),
        }
    }

    // The call `bus`, with so many halfwords.
    fn add(
        &mut self,
        rt: &(impl Print + Eprint),
        count: usize,
        given: &[u32; NUMBERS],
        bus: &mut [u16],
        output: &mut Output,
    )
        ensures len { length output.new.buffer.now ≡ length output.old.buffer.now }
        ensures lent { output.new.buffer.ghost_name ≡ output.old.buffer.ghost_name }
    {
        let waiting = self.halfwords.min(bus.len());
        if bus.len() - waiting < count {
            self.wrong(rt, output);
            return;
        }
        self.halfwords = append(bus, waiting, given, count);
        self.answered(rt, calls::bus(self.machine, self.halfwords), output);
    }

    // What is written for a call for many slots.
    fn told(
        &mut self,
        rt: &(impl Print + Eprint),
        answer: Result<usize, Refusal>,
        commands: &[u64],
        reports: &[u64],
        output: &mut Output,
    )
        ensures len { length output.new.buffer.now ≡ length output.old.buffer.now }
        ensures lent { output.new.buffer.ghost_name ≡ output.old.buffer.ghost_name }
    {
        match self.mode {
            Mode::Lines => {
                let count = answer.unwrap_or(0);
                calls::tell(rt, output, number_in(&answer), count, commands, reports)
            }
            Mode::Tape => {
                let n = answer.unwrap_or(0).min(commands.len());
                self.taped(rt, &commands[..n], output);
            }
        }
    }

    // The call for many slots, on arrays of zeros. After it no halfword waits.
    fn run_slots(
        &mut self,
        rt: &(impl Print + Eprint),
        bus: &[u16],
        commands: &mut [u64],
        reports: &mut [u64],
        output: &mut Output,
    )
        ensures len { length output.new.buffer.now ≡ length output.old.buffer.now }
        ensures lent { output.new.buffer.ghost_name ≡ output.old.buffer.ghost_name }
    {
        let ran = self.machine.slots(bus, commands, reports);
        self.machine = ran.machine;
        self.halfwords = 0;
        self.told(rt, ran.answer, commands, reports, output);
    }

    // The call `slots`, with so many places for commands and for reports: 4,096 at most, as `script` has seen to.
    fn slots(
        &mut self,
        rt: &(impl Print + Eprint),
        commands: u32,
        reports: u32,
        bus: &[u16],
        output: &mut Output,
    )
        ensures len { length output.new.buffer.now ≡ length output.old.buffer.now }
        ensures lent { output.new.buffer.ghost_name ≡ output.old.buffer.ghost_name }
    {
        let mut command_words = zeros();
        let mut report_words = zeros();
        let waiting = self.halfwords.min(bus.len());
        let c = (commands as usize).min(4096);
        let r = (reports as usize).min(4096);
        self.run_slots(
            rt,
            &bus[..waiting],
            &mut command_words[..c],
            &mut report_words[..r],
            output,
        );
    }

    // Plays a line.
    fn play_call(
        &mut self,
        rt: &(impl Print + Eprint),
        call: Call,
        given: &[u32; NUMBERS],
        bus: &mut [u16],
        output: &mut Output,
    )
        ensures len { length output.new.buffer.now ≡ length output.old.buffer.now }
        ensures lent { output.new.buffer.ghost_name ≡ output.old.buffer.ghost_name }
    {
        let machine = self.machine;
        match call {
            Call::Nothing => {}
            Call::Wrong => self.wrong(rt, output),
            Call::Config(cfg, row, refr, tim) => self.configure(rt, cfg, row, refr, tim, output),
            Call::Read(address) => {
                self.answered(rt, calls::request(machine, Kind::Read, address, 0), output)
            }
            Call::Write(address, halfword) => self.answered(
                rt,
                calls::request(machine, Kind::Write, address, halfword),
                output,
            ),
            Call::Slot(carried) => self.slot(rt, carried, output),
            Call::Backlog => self.answered(rt, calls::backlog(machine), output),
            Call::Cell(cfg, row, address) => {
                self.answered(rt, calls::cell(machine, cfg, row, address), output)
            }
            Call::Address(cfg, row, place) => {
                self.answered(rt, calls::address_of(machine, cfg, row, place), output)
            }
            Call::Bus(count) => self.add(rt, count, given, bus, output),
            Call::Slots(commands, reports) => self.slots(rt, commands, reports, bus, output),
        }
    }

    // The line under way has ended: plays it. The next one is empty, and has the next number.
    pub fn ended(
        &mut self,
        rt: &(impl Print + Eprint),
        given: &mut [u32; NUMBERS],
        bus: &mut [u16],
        output: &mut Output,
    )
        ensures next { (self.new.line ≡ no_line) × (self.new.number ≡ (self.old.number + 1) % 18446744073709551616) }
        ensures len { length output.new.buffer.now ≡ length output.old.buffer.now }
        ensures lent { output.new.buffer.ghost_name ≡ output.old.buffer.ghost_name }
    {
        let number = self.number.wrapping_add(1);
        self.line.end(given);
        self.play_call(rt, self.line.call(given), given, bus, output);
        self.line = Line::empty();
        self.number = number;
    }

    // Nothing more is played: the tape gets its last record. Lines need nothing more.
    pub fn finished(&self, rt: &(impl Print + Eprint), output: &mut Output)
        ensures lines { self.now.mode ≡ Mode.Lines → output.new ≡ output.old }
        ensures len { length output.new.buffer.now ≡ length output.old.buffer.now }
        ensures lent { output.new.buffer.ghost_name ≡ output.old.buffer.ghost_name }
    {
        match self.mode {
            Mode::Lines => {}
            Mode::Tape if self.begun => recording::end(rt, output, self.pending),
            Mode::Tape => tell_empty(rt),
        }
    }
}

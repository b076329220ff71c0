// Owns what is written for the calls of a script (REPLAY.md): the line of a call, with the machine after it, and the lines of a call for many slots.
#![tactic(auto)]

ghost use Rattle.std.specs.Prelude.{◌≤◌, ◌≡◌, length};
ghost use Rattle.answer.specs.declared.Answer.{Answer};
ghost use Rattle.calls.specs.Played.{
  played_of,
  config_played,
  request_line,
  request_played,
  slot_played,
  backlog_played,
  cell_played,
  address_played,
};

use address::{Bank, Cell, Column, Row};
use answer::Answer;
use output::Output;
use queue::Kind;
use refusal::number_in;
use sequencer::Machine;
use text::Text;

// The machine after a call, and what is written for the call.
#[derive(Clone, Copy)]
pub struct Played {
    pub machine: Machine,
    pub text: Text,
}

#[tactic(auto, unfolding(crate::specs::Played::config_played, crate::specs::Played::played_of))]
pub fn configure(cfg: u32, row: u32, refr: u32, tim: u32) -> Played
    ensures { result ≡ config_played cfg row refr tim }
{
    let configured = Machine::configure(cfg, row, refr, tim);
    let text = Answer::Config(number_in(&configured.answer)).line();
    let machine = configured.machine;
    Played { machine, text }
}

fn request_line(kind: Kind, number: u8, request: u32) -> Answer
    ensures { result ≡ request_line kind number request }
{
    match kind {
        Kind::Read => Answer::Read(number, request),
        Kind::Write => Answer::Write(number, request),
    }
}

#[tactic(auto, unfolding(crate::specs::Played::request_played, crate::specs::Played::played_of))]
pub fn request(before: Machine, kind: Kind, address: u32, halfword: u16) -> Played
    ensures { result ≡ request_played before kind address halfword }
{
    let requested = before.request(kind, address, halfword);
    let number = number_in(&requested.answer);
    let text = request_line(kind, number, requested.answer.unwrap_or(0)).line();
    let machine = requested.machine;
    Played { machine, text }
}

#[tactic(auto, unfolding(crate::specs::Played::slot_played, crate::specs::Played::played_of))]
pub fn slot(before: Machine, bus: u16) -> Played
    ensures { result ≡ slot_played before bus }
{
    let slot = before.slot(bus);
    let command = slot.command;
    let report = slot.report;
    let text = Answer::Slot(number_in(&slot.answer), command, report).line();
    let machine = slot.machine;
    Played { machine, text }
}

#[tactic(auto, unfolding(crate::specs::Played::backlog_played, crate::specs::Played::played_of))]
pub fn backlog(machine: Machine) -> Played
    ensures { result ≡ backlog_played machine }
{
    let backlog = machine.backlog();
    let text = Answer::Backlog(number_in(&backlog), backlog.unwrap_or(0)).line();
    Played { machine, text }
}

#[tactic(auto, unfolding(crate::specs::Played::cell_played, crate::specs::Played::played_of))]
pub fn cell(machine: Machine, cfg: u32, row: u32, address: u32) -> Played
    ensures { result ≡ cell_played machine cfg row address }
{
    let answer = standalone::to_cell(cfg, row, address);
    let cell = answer.unwrap_or(Cell {
        bank: Bank(0),
        row: Row(0),
        column: Column(0),
    });
    let text = Answer::Cell(number_in(&answer), cell).line();
    Played { machine, text }
}

#[tactic(auto, unfolding(crate::specs::Played::address_played, crate::specs::Played::played_of))]
pub fn address_of(machine: Machine, cfg: u32, row: u32, cell: Cell) -> Played
    ensures { result ≡ address_played machine cfg row cell }
{
    let answer = standalone::to_address(cfg, row, cell);
    let text = Answer::Address(number_in(&answer), answer.unwrap_or(0)).line();
    Played { machine, text }
}

pub fn bus(machine: Machine, halfwords: usize) -> Played
    ensures { result ≡ played_of machine (Answer.Bus halfwords) }
{
    let text = Answer::Bus(halfwords).line();
    Played { machine, text }
}

// A line that is no call, by its number.
pub fn wrong(machine: Machine, number: u64) -> Played
    ensures { result ≡ played_of machine (Answer.Wrong number) }
{
    let text = Answer::Wrong(number).line();
    Played { machine, text }
}

// The lines of the first `count` slots, unpacked from their words.
fn unpacked(
    rt: &(impl Print + Eprint),
    output: &mut Output,
    commands: &[u64],
    reports: &[u64],
    count: usize,
)
    requires { output.old.waiting ≤ length output.old.buffer.now }
    ensures waiting { output.new.waiting ≤ length output.old.buffer.now }
    ensures len { length output.new.buffer.now ≡ length output.old.buffer.now }
    ensures lent { output.new.buffer.ghost_name ≡ output.old.buffer.ghost_name }
{
    for (&command, &report) in commands.iter().zip(reports).take(count) {
        output.say(rt, Answer::Packed(command, report).line());
    }
}

// A line for each place beyond the first `count` that is not 0 any more. They are still 0: the contract of `slots` says so.
fn beyond(rt: &(impl Print + Eprint), output: &mut Output, words: &[u64], count: usize)
    requires { output.old.waiting ≤ length output.old.buffer.now }
    ensures waiting { output.new.waiting ≤ length output.old.buffer.now }
    ensures len { length output.new.buffer.now ≡ length output.old.buffer.now }
    ensures lent { output.new.buffer.ghost_name ≡ output.old.buffer.ghost_name }
{
    for &word in words.iter().skip(count) {
        if word != 0 {
            output.say(rt, Answer::Unknown.line());
        }
    }
}

// The lines of a call for many slots. What waits afterwards stands within the buffer.
pub fn tell(
    rt: &(impl Print + Eprint),
    output: &mut Output,
    number: u8,
    count: usize,
    commands: &[u64],
    reports: &[u64],
)
    ensures waiting { output.new.waiting ≤ length output.old.buffer.now }
    ensures len { length output.new.buffer.now ≡ length output.old.buffer.now }
    ensures lent { output.new.buffer.ghost_name ≡ output.old.buffer.ghost_name }
{
    output.say(rt, Answer::Slots(number, count).line());
    unpacked(rt, output, commands, reports, count);
    beyond(rt, output, commands, count);
    beyond(rt, output, reports, count);
}

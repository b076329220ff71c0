// Runs slots in a loop with a fixed pseudo-random stream of requests and prints a digest of all answers, commands and reports:
// the work of bench/baseline.c, on the proved machine (see bench/run).
#![tactic(auto)]

use bench_stream::{mix, shuffle};
use command::Command;
use plan::Report;
use queue::Kind;
use refusal::number_in;
use sequencer::{Answered, Machine};
use std::io;

const SLOTS: u32 = 10000000;

// One slot in so many asks.
const LOAD: u32 = 8;

// Is the backlog read after each slot?
const READING: bool = false;

// The machine and the digest at the end.
#[derive(Drop)]
struct Bench {
    machine: Machine,
    digest: u32,
}

// A command's kind, bank, and row, column or mode word, and then its halfword.
fn mix_command(digest: u32, command: Command) -> u32 {
    match command {
        Command::Nop => mix(mix(digest, 0), 0),
        Command::Act(bank, row) => mix(
            mix(digest, 16777216 + bank.0 as u32 * 65536 + row.0 as u32),
            0,
        ),
        Command::Read(bank, column) => mix(
            mix(
                digest,
                2 * 16777216 + bank.0 as u32 * 65536 + column.0 as u32,
            ),
            0,
        ),
        Command::Wrt(bank, column, halfword) => mix(
            mix(
                digest,
                3 * 16777216 + bank.0 as u32 * 65536 + column.0 as u32,
            ),
            halfword as u32,
        ),
        Command::Pre(bank) => mix(mix(digest, 4 * 16777216 + bank.0 as u32 * 65536), 0),
        Command::Deac => mix(mix(digest, 5 * 16777216), 0),
        Command::Refr => mix(mix(digest, 6 * 16777216), 0),
        Command::Mrs(word) => mix(mix(digest, 7 * 16777216 + word as u32), 0),
    }
}

fn mix_report(digest: u32, report: Report) -> u32 {
    match report {
        Report::Nothing => mix(mix(digest, 0), 0),
        Report::Read(number, halfword) => mix(mix(digest, 65536 + halfword as u32), number),
        Report::Write(number) => mix(mix(digest, 2 * 65536), number),
    }
}

// The kind of the stream's word x.
fn kind_of(x: u32) -> Kind {
    match x / LOAD % 2 {
        1 => Kind::Write,
        _ => Kind::Read,
    }
}

// A request of the stream's word x.
fn asked(machine: Machine, x: u32) -> Answered<u32> {
    let address = x / 256 % 64 * 2048 + x / 16384 % 1024 * 2;
    machine.request(kind_of(x), address, (x / 65536) as u16)
}

// The reading call, where it is measured.
fn mix_reading(digest: u32, machine: Machine) -> u32 {
    if READING {
        let r = machine.backlog();
        return mix(mix(digest, number_in(&r) as u32), r.unwrap_or(0) as u32);
    }
    digest
}

// A request in one slot of LOAD on the average, and a slot each time.
fn run() -> Bench {
    let made = Machine::configure(0x4620, 4, 136, 0x42215810);
    let mut machine = made.machine;
    let mut x: u32 = 2463534242;
    let mut digest: u32 = 1;
    for _ in 0..SLOTS {
        x = shuffle(x);
        if x % LOAD == 0 {
            let r = asked(machine, x);
            machine = r.machine;
            digest = mix(
                mix(digest, number_in(&r.answer) as u32),
                r.answer.unwrap_or(0),
            );
        }
        let s = machine.slot((x / 65536) as u16);
        machine = s.machine;
        let after = mix_report(
            mix_command(mix(digest, number_in(&s.answer) as u32), s.command),
            s.report,
        );
        digest = mix_reading(after, machine);
    }
    Bench { machine, digest }
}

fn main(rt: HostRuntime) -> io::Result<()> {
    let Bench { machine, digest } = run();
    let accepted = machine.accepted;
    println!(rt; "slots {SLOTS} accepted {accepted} digest {digest}")
}

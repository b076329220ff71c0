// Runs slots, 64 in each call, with a fixed pseudo-random stream of requests between the calls, and prints a digest of all answers and words: the work of
// bench/best.c with -DMANY, on the proved machine (see bench/run).
#![tactic(auto)]

use bench_stream::{mix, shuffle};
use queue::Kind;
use refusal::number_in;
use sequencer::{Answered, Machine};
use std::io;

const SLOTS: u32 = 10000000;

// The slots of a call; the arrays in `called` have this length.
const LENGTH: u32 = 64;

// One slot in so many asks.
const LOAD: u32 = 8;

// Is the backlog read after each call?
const READING: bool = false;

// The machine, the stream's word and the digest.
#[derive(Drop)]
struct Bench {
    machine: Machine,
    x: u32,
    digest: u32,
}

// Words, the first one first.
fn mix_all(digest: u32, words: &[u64]) -> u32 {
    let mut digest = digest;
    for &word in words {
        digest = mix(
            digest,
            (word % 4294967296) as u32 ^ (word / 4294967296 % 4294967296) as u32,
        );
    }
    digest
}

// The reading call, where it is measured. This, `kind_of` and `request` stand in `bench` too: bench/run changes LOAD and READING in each program's own text.
fn mix_reading(digest: u32, machine: Machine) -> u32 {
    if READING {
        let r = machine.backlog();
        return mix(mix(digest, number_in(&r) as u32), r.unwrap_or(0) as u32);
    }
    digest
}

// The kind of the stream's word x.
fn kind_of(x: u32) -> Kind {
    match x / LOAD % 2 {
        1 => Kind::Write,
        _ => Kind::Read,
    }
}

// A request of the stream's word x.
fn request(machine: Machine, x: u32) -> Answered<u32> {
    let address = x / 256 % 64 * 2048 + x / 16384 % 1024 * 2;
    machine.request(kind_of(x), address, (x / 65536) as u16)
}

// A request for each LOAD slots of a call.
fn asked(before: Bench) -> Bench {
    let mut machine = before.machine;
    let mut x = before.x;
    let mut digest = before.digest;
    for _ in 0..LENGTH / LOAD {
        x = shuffle(x);
        let r = request(machine, x);
        machine = r.machine;
        digest = mix(
            mix(digest, number_in(&r.answer) as u32),
            r.answer.unwrap_or(0),
        );
    }
    Bench { machine, x, digest }
}

// What the bus carries. It gives the stream's word after it.
fn fill(bus: &mut [u16], x: u32) -> u32 {
    let mut x = x;
    for halfword in bus {
        x = shuffle(x);
        *halfword = (x / 65536) as u16;
    }
    x
}

// Requests, and then the call.
fn called(before: Bench) -> Bench {
    let asked = asked(before);
    let mut bus = [0u16; 64];
    let mut commands = [0u64; 64];
    let mut reports = [0u64; 64];
    let x = fill(&mut bus, asked.x);
    let machine = asked.machine;
    let r = machine.slots(&bus, &mut commands, &mut reports);
    let answered = mix(
        mix(asked.digest, number_in(&r.answer) as u32),
        (r.answer.unwrap_or(0) % 4294967296) as u32,
    );
    let packed = mix_all(mix_all(answered, &commands), &reports);
    let after = r.machine;
    let digest = mix_reading(packed, after);
    Bench {
        machine: after,
        x,
        digest,
    }
}

fn run() -> Bench {
    let made = Machine::configure(0x4620, 4, 136, 0x42215810);
    let machine = made.machine;
    let mut bench = Bench {
        machine,
        x: 2463534242,
        digest: 1,
    };
    for _ in 0..SLOTS / LENGTH {
        bench = called(bench);
    }
    bench
}

fn main(rt: HostRuntime) -> io::Result<()> {
    let Bench {
        machine,
        digest,
        ..
    } = run();
    let accepted = machine.accepted;
    println!(rt; "slots {SLOTS} accepted {accepted} digest {digest}")
}

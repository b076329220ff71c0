// Writes the tape of a row of 16,384 words, or reads that tape, again and again, and prints a digest of what is answered: the work of bench/tapes.c, on the
// proved writer and reader (see bench/run).
#![tactic(auto)]

ghost use Rattle.std.specs.Prelude.{◌≡◌, ◌<◌, length};

use address::Bank;
use bench_stream::{mix, shuffle};
use command::Command;
use std::io;
use tape::Item;
use tape_decoder::read_at;

const TIMES: u32 = 6000;

// Is writing measured, or reading?
const WRITES: bool = true;

// The length of the tape that was written last, the bytes that were written or read so far, and the digest.
#[derive(Drop)]
struct Bench {
    length: usize,
    bytes: u64,
    digest: u32,
}

// A command's word: half of all are NOPs, and every kind occurs.
fn word(x: u32) -> u64 {
    let kind = x / 256 % 16;
    let bank = x / 4096 % 4;
    let low = x / 65536 % 512;
    if kind < 8 {
        return 0;
    }
    if kind < 10 {
        return 1 + 256 * bank as u64 + 65536 * low as u64;
    }
    if kind < 12 {
        return 2 + 256 * bank as u64 + 65536 * low as u64;
    }
    if kind < 14 {
        return 3 + 256 * bank as u64 + 65536 * low as u64 + 4294967296 * (x % 65536) as u64;
    }
    if kind < 15 {
        return 4 + 256 * bank as u64;
    }
    if x / 128 % 2 == 1 {
        return 7 + 65536 * low as u64;
    }
    5 + (x / 64 % 2) as u64
}

// Words of a fixed pseudo-random stream.
fn fill(words: &mut [u64]) {
    let mut x = 2463534242;
    for place in words.iter_mut() {
        x = shuffle(x);
        *place = word(x);
    }
}

// A kind, a bank and the number of a row or a column.
fn mix_place(digest: u32, kind: u32, bank: Bank, n: u16) -> u32
    requires { kind < 256 }
{
    mix(digest, kind + 256 * bank.0 as u32 + 65536 * n as u32)
}

fn mix_command(digest: u32, command: Command) -> u32 {
    match command {
        Command::Nop => digest,
        Command::Act(bank, row) => mix_place(digest, 1, bank, row.0),
        Command::Read(bank, column) => mix_place(digest, 2, bank, column.0),
        Command::Wrt(bank, column, halfword) => {
            mix(mix_place(digest, 3, bank, column.0), halfword as u32)
        }
        Command::Pre(bank) => mix_place(digest, 4, bank, 0),
        Command::Deac => mix(digest, 5),
        Command::Refr => mix(digest, 6),
        Command::Mrs(word) => mix(digest, 7 + 65536 * word as u32),
    }
}

fn mix_item(digest: u32, item: Item) -> u32 {
    match item {
        Item::End => digest,
        Item::Command(command) => mix_command(digest, command),
        Item::Run(count) => mix(digest, 65536 * count as u32),
        Item::Refused(_, _) => mix(digest, 8),
    }
}

// Reads a tape, by records, each as long as it is: no `for` counts them. An end or a refusal leaves the reader where it is.
fn read_all(digest: u32, tape: &[u8]) -> u32 {
    let mut digest = digest;
    let mut at = 0;
    let mut run = 0;
    while at < tape.len() {
        let found = read_at(tape, at, run);
        let item = found.item;
        digest = mix_item(digest, item);
        if found.at <= at {
            return digest;
        }
        at = found.at;
        run = found.before;
    }
    digest
}

// The byte at a place, 0 where the tape has none.
fn byte_at(tape: &[u8], at: usize) -> u8 {
    tape.get(at).copied().unwrap_or(0)
}

fn put(words: &mut [u64], at: usize, word: u64) {
    if let Some(place) = words.get_mut(at) {
        *place = word;
    }
}

// Writes the tape of the words, and changes one of them: else the same tape would be written every time.
fn written(before: Bench, words: &mut [u64], tape: &mut [u8]) -> Bench {
    let (number, length) = match tape_writer::write(words, tape) {
        Ok(length) => (0, length),
        Err(why) => (why.number(), 0),
    };
    let answered = mix(mix(before.digest, number as u32), (length % 65536) as u32);
    let digest = mix(answered, byte_at(tape, (answered % 65536) as usize) as u32);
    put(words, (digest % 16384) as usize, word(digest));
    Bench {
        length,
        bytes: std::num::wrapping_add_u64(before.bytes, length as u64),
        digest,
    }
}

// Reads the tape that was written last.
fn read(before: Bench, tape: &[u8]) -> Bench {
    if tape.len() < before.length {
        return before;
    }
    Bench {
        bytes: std::num::wrapping_add_u64(before.bytes, before.length as u64),
        digest: read_all(before.digest, &tape[..before.length]),
        ..before
    }
}

// What is measured.
fn turn(before: Bench, words: &mut [u64], tape: &mut [u8]) -> Bench {
    if WRITES {
        return written(before, words, tape);
    }
    read(before, tape)
}

fn run(words: &mut [u64], tape: &mut [u8]) -> Bench {
    fill(words);
    let mut bench = Bench {
        length: tape_writer::write(words, tape).unwrap_or(0),
        bytes: 0,
        digest: 1,
    };
    for _ in 0..TIMES {
        bench = turn(bench, words, tape);
    }
    // So that the digest has all bytes of the last tape.
    read(bench, tape)
}

fn no_words() -> [u64; 16384]
    ensures { 16384 ≡ length result }
{
    [0; 16384]
}

fn no_bytes() -> [u8; 131072]
    ensures { 131072 ≡ length result }
{
    [0; 131072]
}

fn main(rt: HostRuntime) -> io::Result<()> {
    let mut words = no_words();
    let mut tape = no_bytes();
    let b = run(&mut words, &mut tape);
    let bytes = b.bytes;
    let digest = b.digest;
    println!(rt; "bytes {bytes} digest {digest}")
}

// Writes what reading gives for every front part of a short tape from standard input, and for every tape that differs from it in one byte. A test compares
// it with the independent reference.
#![tactic(auto)]

ghost use Rattle.std.specs.Prelude.{◌<◌, ◌≤◌, length};

use answer::Answer;
use output::{Output, fail, large_buffer};
use std::io::Read;
use tape_scan::{Refused, scan};
use text::Text;

// The most bytes of a tape.
const MOST: usize = 4096;

// The words of a line, in the form that Text::word takes.
const CUT: u64 = 0x637574;

const CHANGE: u64 = 0x6368616e6765;

// What a tape gives.
fn verdict(scanned: Result<u64, Refused>) -> Text {
    match scanned {
        Ok(slots) => Answer::Ended(slots).line(),
        Err(refused) => Answer::Refused(refused.why.number(), refused.place as u64).line(),
    }
}

// A word and a number, each with a space after it.
fn begun(letters: u64, n: u64) -> Text {
    Text::empty().word(letters).byte(32).decimal(n).byte(32)
}

// Every front part of a tape.
fn cuts(rt: &(impl Print + Eprint), tape: &[u8], output: &mut Output) {
    for kept in 0..=tape.len() {
        output.say(rt, begun(CUT, kept as u64));
        output.say(rt, verdict(scan(&tape[..kept])));
    }
}

// Every tape that has another byte, or the same, at a place.
fn values(rt: &(impl Print + Eprint), tape: &mut [u8], place: usize, output: &mut Output)
    requires { place < length tape.old }
{
    for value in 0..=u8::MAX {
        tape[place] = value;
        output.say(
            rt,
            begun(CHANGE, place as u64).decimal(value as u64).byte(32),
        );
        output.say(rt, verdict(scan(tape)));
    }
}

// And at every place.
fn changes(rt: &(impl Print + Eprint), tape: &mut [u8], output: &mut Output) {
    for place in 0..tape.len() {
        let byte = tape[place];
        values(rt, tape, place, output);
        tape[place] = byte;
    }
}

fn damaged(rt: &(impl Print + Eprint), tape: &mut [u8], output: &mut Output) {
    cuts(rt, tape, output);
    changes(rt, tape, output);
    output.flush(rt);
}

// After what was read: has the input ended?
fn ended(rt: &(impl Input + Eprint)) -> bool {
    let mut more = [0u8; 1];
    match rt.reader().read(&mut more) {
        Ok(got) => got == 0,
        Err(why) => {
            fail(rt, "read", why);
            false
        }
    }
}

// Reads until the input ends or the buffer is full, as many bytes in a turn as come (no `for` counts them), and answers how many came. A read that fails ends it too: `ended` says why.
fn read_full(rt: &impl Input, input: &mut [u8]) -> usize
    ensures { result ≤ length input.old }
{
    let mut reader = rt.reader();
    let mut done = 0;
    while done < input.len() {
        let got = reader.read(&mut input[done..]).unwrap_or(0);
        if got == 0 {
            return done;
        }
        done += got;
    }
    done
}

fn main(rt: HostRuntime) {
    let mut input = large_buffer();
    let mut buffer = large_buffer();
    let n = read_full(&rt, &mut input);
    if MOST < n {
        let _ = eprintln!(rt; "damage: give a tape of 4,096 bytes at most");
        return;
    }
    if ended(&rt) {
        damaged(&rt, &mut input[..n], &mut Output::new(&mut buffer));
    }
}

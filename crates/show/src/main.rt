// Writes the records of a tape of any length from standard input to standard output, one a line, as TAPES.md says.
#![tactic(auto)]

ghost use Rattle.std.specs.Prelude.{◌+◌, ◌≤◌, length, IfOk};

use answer::Answer;
use output::{Output, fail, large_buffer};
use std::io;
use std::io::Read;
use tape::{Item, Refusal};
use tape_decoder::read_at;
use text::Text;

// How far the tape has been read. What stands in the input buffer is a part of it, and begins with a record.
#[derive(Clone, Copy)]
struct Shown {
    // The place on the tape of the buffer's first byte.
    base: u64,
    // How many bytes at the buffer's front wait to be read.
    held: usize,
    // The reader's place in the buffer, and the run just before it.
    at: usize,
    run: u16,
    // How many slots there were.
    slots: u64,
    // Is there nothing more to read?
    over: bool,
}

// The line of a record that is read, with its slot. An end and a refusal have theirs from `last_line`.
fn record_line(slot: u64, item: Item) -> Text {
    match item {
        Item::Command(command) => Answer::Record(slot, command).line(),
        Item::Run(count) => Answer::Run(slot, count).line(),
        Item::End | Item::Refused(_, _) => Text::empty(),
    }
}

// The last line: how many slots the tape has, or the refused record's place on it. The buffer's first byte has the place `base`.
fn last_line(slots: u64, base: u64, item: Item) -> Text {
    match item {
        Item::End => Answer::Ended(slots).line(),
        Item::Refused(why, at) => {
            Answer::Refused(why.number(), std::num::wrapping_add_u64(base, at as u64)).line()
        }
        Item::Command(_) | Item::Run(_) => Text::empty(),
    }
}

// Could what is found at the end of a part be another thing where the tape goes on?
fn waits(item: Item) -> bool {
    matches!(item, Item::End | Item::Refused(Refusal::Cut, _))
}

// The byte at a place of a part, 0 where it has none.
fn byte_at(part: &[u8], at: usize) -> u8 {
    part.get(at).copied().unwrap_or(0)
}

// Says why a record is refused.
fn reason(rt: &impl Eprint, why: Refusal, kind: u8) {
    let _ = match why {
        Refusal::Kind => eprint!(rt; "no record has the kind {kind}"),
        Refusal::Cut => rt.eprint("the tape ends within the record"),
        Refusal::Run => { rt.eprint("a run of no NOPs, or a run after a run of fewer than 65,535") }
    };
}

// A sentence for a person where a record is refused.
fn explained(rt: &impl Eprint, base: u64, part: &[u8], item: Item) {
    if let Item::Refused(why, at) = item {
        let place = std::num::wrapping_add_u64(base, at as u64);
        let _ = eprint!(rt; "show: the record at place {place} is refused: ");
        reason(rt, why, byte_at(part, at));
        let _ = rt.eprint("\n");
    }
}

// Reads once, behind the bytes that wait.
fn fetched(rt: &impl Input, input: &mut [u8], held: usize) -> io::Result<usize>
    requires { held ≤ length input.old }
    ensures { IfOk result (λ got. held + got ≤ length input.old) }
{
    rt.reader().read(&mut input[held..])
}

impl Shown {
    // Says a record.
    fn told(&mut self, rt: &(impl Print + Eprint), item: Item, output: &mut Output) {
        let slot = std::num::wrapping_add_u64(self.slots, 1);
        output.say(rt, record_line(slot, item));
        self.slots = std::num::wrapping_add_u64(self.slots, tape_scan::slots(item));
    }

    // Says the records of a part of the tape, up to its end or a refused one: those leave the reader where it is. By records, which no `for` counts.
    fn records(&mut self, rt: &(impl Print + Eprint), part: &[u8], output: &mut Output) {
        let mut at = 0;
        while at < part.len() {
            let found = read_at(part, at, self.run);
            if found.at <= at {
                break;
            }
            self.told(rt, found.item, output);
            self.run = found.before;
            at = found.at;
        }
        self.at = at;
    }

    // The tape has no more to show: says what stands at the reader's place.
    fn ended(&mut self, rt: &(impl Print + Eprint), part: &[u8], output: &mut Output) {
        let item = read_at(part, self.at, self.run).item;
        output.say(rt, last_line(self.slots, self.base, item));
        output.flush(rt);
        explained(rt, self.base, part, item);
        self.over = true;
    }

    // The part of the tape in the buffer has no whole record any more: its rest begins the next part.
    fn kept(&mut self, rt: &(impl Print + Eprint), part: &mut [u8], output: &mut Output) {
        let at = self.at.min(part.len());
        part.copy_within(at.., 0);
        output.flush(rt);
        self.base = std::num::wrapping_add_u64(self.base, at as u64);
        self.held = part.len() - at;
        self.at = 0;
        self.over = output.failed;
    }

    // Shows a part of the tape.
    fn part_shown(&mut self, rt: &(impl Print + Eprint), part: &mut [u8], output: &mut Output) {
        self.records(rt, part, output);
        if waits(read_at(part, self.at, self.run).item) {
            self.kept(rt, part, output);
        } else {
            self.ended(rt, part, output);
        }
    }

    // Reads once, and shows what came.
    fn turn(&mut self, rt: &(impl Input + Print + Eprint), input: &mut [u8], output: &mut Output) {
        let held = self.held.min(input.len());
        match fetched(rt, input, held) {
            Ok(0) => self.ended(rt, &input[..held], output),
            Ok(got) => {
                let n = (held + got).min(input.len());
                self.part_shown(rt, &mut input[..n], output);
            }
            Err(why) => {
                fail(rt, "read", why);
                self.over = true;
            }
        }
    }

    // A proved loop has to end, and nothing says that a tape does. So the loop has a number of turns that no run uses up.
    fn turns(&mut self, rt: &(impl Input + Print + Eprint), input: &mut [u8], output: &mut Output) {
        for _ in 0..u64::MAX {
            self.turn(rt, input, output);
            if self.over {
                return;
            }
        }
    }
}

fn start() -> Shown {
    Shown {
        base: 0,
        held: 0,
        at: 0,
        run: 0,
        slots: 0,
        over: false,
    }
}

fn main(rt: HostRuntime) {
    let mut input = large_buffer();
    let mut buffer = large_buffer();
    start().turns(&rt, &mut input, &mut Output::new(&mut buffer));
}

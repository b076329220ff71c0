// Owns a tape on its way to standard output.
#![tactic(auto)]

ghost use Rattle.std.specs.Prelude.{◌≤◌, ◌≡◌, false, length};
ghost use Rattle.recording.specs.Recording.{Lent, Added, Behind, Ended};

use output::Output;
use tape_writer::{Extended, extend, finish};

// The records of 4,096 slots, the most of a row, are no longer than this: 6 bytes for each, and 3 for the NOPs that wait before them.
const ROOM: usize = 24579;

// Goes on with a tape by the slots of a row of words. `pending` NOPs at its end still wait for their record; the answer is how many wait then.
pub fn add(rt: &(impl Print + Eprint), output: &mut Output, pending: u16, words: &[u64]) -> u16
    ensures added { Lent words.now output.old.buffer.now → output.new.failed ≡ false → Added output.old pending words.now output.new result }
    ensures behind { Behind output.old pending words.now output.new result }
    ensures len { length output.new.buffer.now ≡ length output.old.buffer.now }
    ensures lent { output.new.buffer.ghost_name ≡ output.old.buffer.ghost_name }
{
    output.make_room(rt, ROOM);
    let buffer = &mut *output.buffer;
    let waiting = output.waiting.min(buffer.len());
    // Of a row that is refused nothing is added.
    let more = extend(pending, words, &mut buffer[waiting..]).unwrap_or(Extended {
        length: 0,
        pending,
    });
    output.waiting = waiting + more.length;
    more.pending
}

// Ends a tape: the NOPs that wait get their record.
pub fn end(rt: &(impl Print + Eprint), output: &mut Output, pending: u16)
    ensures ended { 24579 ≤ length output.old.buffer.now → output.new.failed ≡ false → Ended output.old pending output.new }
    ensures len { length output.new.buffer.now ≡ length output.old.buffer.now }
    ensures lent { output.new.buffer.ghost_name ≡ output.old.buffer.ghost_name }
{
    output.make_room(rt, ROOM);
    let buffer = &mut *output.buffer;
    let waiting = output.waiting.min(buffer.len());
    let length = finish(pending, &[], &mut buffer[waiting..]).unwrap_or(0);
    output.waiting = waiting + length;
}

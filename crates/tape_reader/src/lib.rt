// Owns the reader of tapes (document 02, (ii)): it keeps a lent tape and its place, and goes from record to record.
#![tactic(auto)]

ghost use Rattle.std.specs.Prelude.{◌≡◌};
ghost use Rattle.tape.specs.Reading.{step_of};
ghost use Rattle.tape_reader.specs.Reader.{step_after};

use tape::Item;
use tape_decoder::read_at;

// A lent tape, the place of the next record, and the count of the run read just before, else 0. Any place and any count may stand here.
#[derive(Clone, Copy)]
pub struct Reader<'a> {
    pub tape: &'a [u8],
    pub at: usize,
    pub before: u16,
}

// A reader at the beginning of a tape.
pub fn new(tape: &[u8]) -> Reader<'_>
    ensures { (result.tape ≡ tape.entry) × (result.at ≡ 0) × (result.before ≡ 0) }
{
    Reader {
        tape,
        at: 0,
        before: 0,
    }
}

// The next record.
pub fn next(r: &mut Reader<'_>) -> Item
    ensures { (r.new.tape ≡ r.old.tape) × (step_after result r.new ≡ step_of r.old.tape.now r.old.at r.old.before) }
{
    let found = read_at(r.tape, r.at, r.before);
    r.at = found.at;
    r.before = found.before;
    found.item
}

// Owns the writer of tapes (document 02, (ii)): a whole tape from a row of words, and a tape that is written in pieces.
#![tactic(auto)]

ghost use Rattle.std.specs.Prelude.{◌≡◌, true};
ghost use Rattle.tape.specs.Writing.{piece_of};
ghost use Rattle.tape_encoder.specs.Encoder.{Room, Puts};
ghost use Rattle.tape_writer.specs.Writer.{
  slots_in,
  all_pack,
  number_of,
  written_of,
  whole_of,
  extended_of,
  outcome_in,
  extending_in,
};
ghost use Rattle.tape_writer.specs.Passes.{measured_of};

use packing::packs_command;
use tape_encoder::{Encoder, Slot, run_length};

// Why nothing is written.
#[derive(Clone, Copy, Debug, PartialEq, Eq)]
pub enum WriteError {
    // 14: the lent bytes are too few.
    NoRoom,
    // 20: a word of the row packs no command.
    NotACommand,
}

impl WriteError {
    // Its number in the documents' table.
    pub fn number(self) -> u8
        ensures { result ≡ number_of self }
    {
        match self {
            WriteError::NoRoom => 14,
            WriteError::NotACommand => 20,
        }
    }
}

// A piece of a tape: the length of its records, and how many NOPs at its end still wait for theirs.
#[derive(Clone, Copy)]
pub struct Extended {
    pub length: usize,
    pub pending: u16,
}

// The first pass over a row: how long its piece of the tape is, and what waits after it.
#[tactic(auto, using(tape_encoder::proofs::Slots::short_run, crate::proofs::Passes::onward, crate::proofs::Passes::onward_all, crate::proofs::Passes::onward_next, crate::proofs::Passes::onward_stop, crate::proofs::Passes::onward_end, crate::proofs::Passes::slot_grows))]
fn measure(pending: u16, words: &[u64]) -> Result<Extended, WriteError>
    ensures { result ≡ measured_of pending words.now }
{
    let mut length = 0;
    let mut open = pending;
    for &word in words {
        if !packs_command(word) {
            return Err(WriteError::NotACommand);
        }
        let slot = Slot { word };
        length += slot.length(open);
        open = slot.pending_after(open);
    }
    Ok(Extended {
        length,
        pending: open,
    })
}

// The second pass over a row: its records.
fn fill(encoder: &mut Encoder, pending: u16, words: &[u64])
    requires { (all_pack words.now ≡ true) × Room encoder.old (piece_of pending (slots_in words.now)).bytes }
    ensures { Puts encoder.old encoder.new (piece_of pending (slots_in words.now)).bytes }
{
    let mut open = pending;
    for &word in words {
        let slot = Slot { word };
        encoder.put_slot(open, slot);
        open = slot.pending_after(open);
    }
}

// Goes on with a tape: writes the records of the slots of a row, after so many NOPs that wait: 0 at first, then what the call before answered. Refused, as many wait as before.
#[tactic(auto, using(crate::proofs::Passes::measured_all, crate::proofs::Passes::measured_not, crate::proofs::Outcomes::extended_20, crate::proofs::Outcomes::extended_14, crate::proofs::Outcomes::extended_0))]
pub fn extend(pending: u16, words: &[u64], tape: &mut [u8]) -> Result<Extended, WriteError>
    ensures { extending_in pending result tape.new ≡ extended_of pending words.now tape.old }
{
    let found = measure(pending, words)?;
    if tape.len() < found.length {
        return Err(WriteError::NoRoom);
    }
    let mut encoder = Encoder { tape, at: 0 };
    fill(&mut encoder, pending, words);
    Ok(found)
}

// Ends a tape: as `extend`, and the NOPs that wait at the end get their record too. Answers the length of what was written.
#[tactic(auto, using(tape_encoder::proofs::Slots::short_run, crate::proofs::Passes::measured_all, crate::proofs::Passes::measured_not, crate::proofs::Passes::piece_short, crate::proofs::Outcomes::written_20, crate::proofs::Outcomes::written_14, crate::proofs::Outcomes::written_0))]
pub fn finish(pending: u16, words: &[u64], tape: &mut [u8]) -> Result<usize, WriteError>
    ensures { outcome_in result tape.new ≡ written_of pending words.now tape.old }
{
    let found = measure(pending, words)?;
    let length = found.length + run_length(found.pending);
    if tape.len() < length {
        return Err(WriteError::NoRoom);
    }
    let mut encoder = Encoder { tape, at: 0 };
    fill(&mut encoder, pending, words);
    encoder.put_run(found.pending);
    Ok(length)
}

// The tape of a row of words: answers its length.
pub fn write(words: &[u64], tape: &mut [u8]) -> Result<usize, WriteError>
    ensures { outcome_in result tape.new ≡ whole_of words.now tape.old }
{
    finish(0, words, tape)
}

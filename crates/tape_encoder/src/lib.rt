// Owns the records that a slot adds to a tape (document 02, (ii)): how long they are, and their bytes, after NOPs that still wait for their record.
#![tactic(auto)]

ghost use Rattle.std.specs.Prelude.{◌≡◌, true, [], ◌∷◌, length};
ghost use Rattle.packing.specs.Packing.{command_in, packs_command};
ghost use Rattle.tape.specs.Writing.{pair_of, run_bytes, command_bytes, slot_piece};
ghost use Rattle.tape_encoder.specs.Encoder.{Room, Puts};

// The bytes of a run's record.
#[tactic(auto, unfolding(tape::specs::Writing::run_bytes))]
pub fn run_length(run: u16) -> usize
    ensures { result ≡ length (run_bytes run) }
{
    if run == 0 {
        return 0;
    }
    3
}

// The bytes of a command's record.
#[tactic(auto, using(device::proofs::Tests::if_both), unfolding(packing::specs::Packing::command_in, tape::specs::Writing::command_bytes, tape::specs::Writing::run_bytes))]
fn command_length(word: u64) -> usize
    ensures { result ≡ length (command_bytes (command_in word)) }
{
    match word % 256 {
        1 => 4,
        2 => 4,
        3 => 6,
        4 => 2,
        5 => 1,
        6 => 1,
        _ => 3,
    }
}

// The word of a slot: it packs a command. The word 0 is NOP.
#[derive(Clone, Copy)]
pub struct Slot {
    pub word: u64,
    ghost packs: { packs_command word ≡ true },
}

impl Slot {
    // The bytes of the records that the slot ends, after so many NOPs that wait.
    #[tactic(auto, using(crate::proofs::Slots::is_nop_lem, crate::proofs::Slots::no_nop, crate::proofs::Slots::joins, crate::proofs::Slots::begins, crate::proofs::Slots::ends, crate::proofs::Slots::some_run, crate::proofs::Slots::few_bytes, crate::proofs::Slots::short_run))]
    pub fn length(self, pending: u16) -> usize
        ensures { result ≡ length (slot_piece pending (command_in self.word)).bytes }
    {
        if self.word == 0 {
            if pending < 65535 {
                return 0;
            }
            return 3;
        }
        run_length(pending) + command_length(self.word)
    }

    // How many NOPs wait after the slot.
    #[tactic(auto, using(crate::proofs::Slots::is_nop_lem, crate::proofs::Slots::no_nop, crate::proofs::Slots::joins, crate::proofs::Slots::begins, crate::proofs::Slots::ends))]
    pub fn pending_after(self, pending: u16) -> u16
        ensures { result ≡ (slot_piece pending (command_in self.word)).pending }
    {
        if self.word == 0 {
            if pending < 65535 {
                return pending + 1;
            }
            return 1;
        }
        0
    }
}

// A tape that is written: the lent bytes, and the place after what has been put there.
#[derive(Drop)]
pub struct Encoder<'a> {
    pub tape: &'a mut [u8],
    pub at: usize,
}

impl<'a> Encoder<'a> {
    fn put_byte(&mut self, byte: u8)
        requires { Room self.old (byte ∷ []) }
        ensures { Puts self.old self.new (byte ∷ []) }
    {
        self.tape[self.at] = byte;
        self.at += 1;
    }

    // A number in two bytes, the low one first.
    fn put_pair(&mut self, n: u16)
        requires { Room self.old (pair_of n) }
        ensures { Puts self.old self.new (pair_of n) }
    {
        self.tape[self.at..self.at + 2].copy_from_slice(&n.to_le_bytes());
        self.at += 2;
    }

    #[tactic(auto, using(crate::proofs::Slots::no_run, crate::proofs::Slots::some_run))]
    pub fn put_run(&mut self, run: u16)
        requires { Room self.old (run_bytes run) }
        ensures { Puts self.old self.new (run_bytes run) }
    {
        if run == 0 {
            return;
        }
        self.put_byte(0);
        self.put_pair(run)
    }

    // The record of a command that is not NOP. A chain of comparisons and not a match, which becomes an indirect jump (docs/PERFORMANCE.md).
    #[tactic(auto, using(crate::proofs::Slots::mode_bytes, crate::proofs::Slots::bare_bytes, crate::proofs::Slots::bank_bytes, crate::proofs::Slots::place_bytes, crate::proofs::Slots::write_bytes))]
    fn put_command(&mut self, slot: Slot)
        requires { (slot.word ≡ 0 → ⊥) × Room self.old (command_bytes (command_in slot.word)) }
        ensures { Puts self.old self.new (command_bytes (command_in slot.word)) }
    {
        let word = slot.word;
        let kind = (word % 256) as u8;
        let low = (word / 65536 % 65536) as u16;
        self.put_byte(kind);
        if 6 < kind {
            return self.put_pair(low);
        }
        if 4 < kind {
            return;
        }
        self.put_byte((word / 256 % 256) as u8);
        if 3 < kind {
            return;
        }
        self.put_pair(low);
        if kind < 3 {
            return;
        }
        self.put_pair((word / 4294967296 % 65536) as u16)
    }

    // The records that a slot ends, after so many NOPs that wait.
    #[tactic(auto, using(crate::proofs::Slots::is_nop_lem, crate::proofs::Slots::no_nop, crate::proofs::Slots::joins, crate::proofs::Slots::begins, crate::proofs::Slots::ends))]
    pub fn put_slot(&mut self, pending: u16, slot: Slot)
        requires { Room self.old (slot_piece pending (command_in slot.word)).bytes }
        ensures { Puts self.old self.new (slot_piece pending (command_in slot.word)).bytes }
    {
        if slot.word == 0 {
            if pending < 65535 {
                return;
            }
            return self.put_run(pending);
        }
        self.put_run(pending);
        self.put_command(slot)
    }
}

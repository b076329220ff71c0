// Owns the reading of a whole tape in memory: how many slots it has, and what it ends with.
#![tactic(auto)]

ghost use Rattle.std.specs.Prelude.{◌≡◌, length};
ghost use Rattle.tape.specs.Reading.{answer_of, slots_of};
ghost use Rattle.tape_scan.specs.Scan.{scanned_of, scanned_in};

use tape::{Item, Refusal};
use tape_decoder::read_at;

// The first refused record of a tape: why, its first place, and the slots before it, modulo 2^64.
#[derive(Clone, Copy, Debug, PartialEq, Eq)]
pub struct Refused {
    pub why: Refusal,
    pub place: usize,
    pub slots: u64,
}

// How many slots an item stands for.
#[tactic(auto, using(std::proofs::Common::rules))]
pub fn slots(item: Item) -> u64
    ensures { result ≡ length (slots_of (answer_of item)) }
{
    match item {
        Item::Command(_) => 1,
        Item::Run(count) => count as u64,
        Item::End | Item::Refused(_, _) => 0,
    }
}

// Reads a tape to its end, and answers its slots, modulo 2^64; or its first refused record.
pub fn scan(tape: &[u8]) -> Result<u64, Refused>
    ensures { scanned_in result ≡ scanned_of tape.now }
{
    let mut at = 0;
    let mut run = 0;
    let mut count = 0;
    // By records, each as long as it is: no `for` counts them.
    while at < tape.len() {
        let found = read_at(tape, at, run);
        let item = found.item;
        if let Item::Refused(why, place) = item {
            return Err(Refused {
                why,
                place,
                slots: count,
            });
        }
        count = std::num::wrapping_add_u64(count, slots(item));
        at = found.at;
        run = found.before;
    }
    Ok(count)
}

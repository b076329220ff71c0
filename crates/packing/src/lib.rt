// Owns commands and reports as words of 64 bits (docs/PACKING.md): the word of each, what a word unpacks to, and whether it packs anything.
// Functions and not From and TryFrom: README names them, and unpacking answers for every word.
#![tactic(auto)]

ghost use Rattle.std.specs.Prelude.{◌≡◌};
ghost use Rattle.packing.specs.Limits.{limit_of};
ghost use Rattle.packing.specs.Packing.{
  word_of,
  command_word,
  command_in,
  packs_command,
  report_word,
  report_in,
  packs_report,
};

use address::{Bank, Column, Row};
use command::Command;
use plan::Report;

// A word of its four fields.
#[tactic(auto, unfolding(crate::specs::Packing::word_of))]
fn word(kind: u8, bank: u8, low: u16, high: u32) -> u64
    ensures { result ≡ word_of kind bank low high }
{
    kind as u64 + 256 * bank as u64 + 65536 * low as u64 + 4294967296 * high as u64
}

// The word of a command.
#[tactic(auto, unfolding(crate::specs::Packing::command_word))]
pub fn pack_command(command: Command) -> u64
    ensures { result ≡ command_word command }
{
    match command {
        Command::Nop => word(0, 0, 0, 0),
        Command::Act(bank, row) => word(1, bank.0, row.0, 0),
        Command::Read(bank, column) => word(2, bank.0, column.0, 0),
        Command::Wrt(bank, column, halfword) => word(3, bank.0, column.0, halfword as u32),
        Command::Pre(bank) => word(4, bank.0, 0, 0),
        Command::Deac => word(5, 0, 0, 0),
        Command::Refr => word(6, 0, 0, 0),
        Command::Mrs(mode) => word(7, 0, mode, 0),
    }
}

// The command that a word has by its kind, NOP for a kind that no command has. `packs_command` says whether the word is that command's.
#[tactic(auto, unfolding(crate::specs::Packing::command_in))]
pub fn unpack_command(word: u64) -> Command
    ensures { result ≡ command_in word }
{
    let bank = Bank((word / 256 % 256) as u8);
    let low = (word / 65536 % 65536) as u16;
    let halfword = (word / 4294967296 % 65536) as u16;
    match word % 256 {
        1 => Command::Act(bank, Row(low)),
        2 => Command::Read(bank, Column(low)),
        3 => Command::Wrt(bank, Column(low), halfword),
        4 => Command::Pre(bank),
        5 => Command::Deac,
        6 => Command::Refr,
        7 => Command::Mrs(low),
        _ => Command::Nop,
    }
}

// The words of a kind's commands lie below this.
#[tactic(auto, unfolding(crate::specs::Limits::limit_of))]
fn limit(kind: u64) -> u64
    ensures { result ≡ limit_of kind }
{
    match kind {
        0 => 1,
        1 => 4294967296,
        2 => 4294967296,
        3 => 281474976710656,
        4 => 65536,
        5 => 6,
        6 => 7,
        7 => 4294967296,
        _ => 0,
    }
}

// Is the word a command's?
#[tactic(auto, using(device::proofs::Tests::cond_same, crate::proofs::Limits::packs_is))]
pub fn packs_command(word: u64) -> bool
    ensures { result ≡ packs_command word }
{
    let kind = word % 256;
    if limit(kind) <= word {
        return false;
    }
    // MRS has no bank.
    if kind == 7 {
        return word / 256 % 256 == 0;
    }
    true
}

// The word of a report.
#[tactic(auto, unfolding(crate::specs::Packing::report_word))]
pub fn pack_report(report: Report) -> u64
    ensures { result ≡ report_word report }
{
    match report {
        Report::Nothing => word(0, 0, 0, 0),
        Report::Read(number, halfword) => word(1, 0, halfword, number),
        Report::Write(number) => word(2, 0, 0, number),
    }
}

// The report that a word has by its kind. `packs_report` says whether the word is that report's.
#[tactic(auto, unfolding(crate::specs::Packing::report_in))]
pub fn unpack_report(word: u64) -> Report
    ensures { result ≡ report_in word }
{
    let low = (word / 65536 % 65536) as u16;
    let number = (word / 4294967296) as u32;
    match word % 256 {
        1 => Report::Read(number, low),
        2 => Report::Write(number),
        _ => Report::Nothing,
    }
}

// Is the word a report's?
#[tactic(auto, unfolding(crate::specs::Packing::packs_report))]
pub fn packs_report(word: u64) -> bool
    ensures { result ≡ packs_report word }
{
    pack_report(unpack_report(word)) == word
}

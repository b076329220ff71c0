// Owns the lines that are written for a script's answers (REPLAY.md) and for a tape's records (TAPES.md).
#![tactic(auto)]

ghost use Rattle.std.specs.Prelude.{◌≡◌};
ghost use Rattle.answer.specs.Output.{
  and_word,
  and_number,
  and_one,
  and_two,
  command_of,
  report_of,
  begun_of,
  number_line,
  pair_line,
  slot_line,
  unknown_of,
  packed_command,
  packed_report,
  packed_line,
  unknown_line,
  cell_line,
  record_line,
  run_line,
  answer_line,
};

use address::{Bank, Cell};
use command::Command;
use plan::Report;
use script::{ADDRESS, BACKLOG, BUS, CELL, CONFIG, READ, SLOT, SLOTS, WRITE};
use text::Text;

// The answer to one line of a script, or what is said of one record of a tape. A call's answer has a number of document 01's table first: a number and no Refusal,
// since `answer_line` has a line for every one.
#[derive(Clone, Copy)]
pub enum Answer {
    Config(u8),
    // And the request's number.
    Read(u8, u32),
    Write(u8, u32),
    Slot(u8, Command, Report),
    Backlog(u8, u8),
    Cell(u8, Cell),
    Address(u8, u32),
    // How many halfwords wait.
    Bus(usize),
    // And how many slots were run.
    Slots(u8, usize),
    // One of those slots: the words of its command and of its report.
    Packed(u64, u64),
    // A place beyond those slots that is no longer 0.
    Unknown,
    // A line that is no call: its place in the script, counted from 1.
    Wrong(u64),
    // A tape's command that is not NOP: its slot, counted from 1.
    Record(u64, Command),
    // A tape's run of so many NOPs: its first slot.
    Run(u64, u16),
    // A tape's end: how many slots it has.
    Ended(u64),
    // A tape's refused record: a number of document 02's table, and its first place, counted from 0.
    Refused(u8, u64),
}

// The other words of a line, in the form that Text::word takes.
const ERROR: u64 = 0x6572726f72;

const END: u64 = 0x656e64;

const REFUSED: u64 = 0x72656675736564;

const NOP: u64 = 0x4e4f50;

const ACT: u64 = 0x414354;

const READ_COMMAND: u64 = 0x52454144;

const WRT: u64 = 0x575254;

const PRE: u64 = 0x505245;

const DEAC: u64 = 0x44454143;

const REFR: u64 = 0x52454652;

const MRS: u64 = 0x4d5253;

// A word with a space before it.
#[tactic(auto, unfolding(crate::specs::Output::and_word))]
fn and_word(text: Text, letters: u64) -> Text
    ensures { result ≡ and_word text letters }
{
    text.byte(32).word(letters)
}

// A number with a space before it.
#[tactic(auto, unfolding(crate::specs::Output::and_number))]
fn and_number(text: Text, n: u64) -> Text
    ensures { result ≡ and_number text n }
{
    text.byte(32).decimal(n)
}

// A word and a number, each with a space before it.
#[tactic(auto, unfolding(crate::specs::Output::and_one))]
fn and_one(text: Text, letters: u64, a: u64) -> Text
    ensures { result ≡ and_one text letters a }
{
    and_number(and_word(text, letters), a)
}

// A word and two numbers.
#[tactic(auto, unfolding(crate::specs::Output::and_two))]
fn and_two(text: Text, letters: u64, a: u64, b: u64) -> Text
    ensures { result ≡ and_two text letters a b }
{
    and_number(and_one(text, letters, a), b)
}

// A command's word, a bank, and the number of a row or a column.
fn and_place(text: Text, letters: u64, bank: Bank, n: u16) -> Text
    ensures { result ≡ and_two text letters bank.0 n }
{
    and_two(text, letters, bank.0 as u64, n as u64)
}

#[tactic(auto, unfolding(crate::specs::Output::command_of))]
fn and_command(text: Text, command: Command) -> Text
    ensures { result ≡ command_of text command }
{
    match command {
        Command::Nop => and_word(text, NOP),
        Command::Act(bank, row) => and_place(text, ACT, bank, row.0),
        Command::Read(bank, column) => and_place(text, READ_COMMAND, bank, column.0),
        Command::Wrt(bank, column, halfword) => {
            and_number(and_place(text, WRT, bank, column.0), halfword as u64)
        }
        Command::Pre(bank) => and_one(text, PRE, bank.0 as u64),
        Command::Deac => and_word(text, DEAC),
        Command::Refr => and_word(text, REFR),
        Command::Mrs(word) => and_one(text, MRS, word as u64),
    }
}

#[tactic(auto, unfolding(crate::specs::Output::report_of, crate::specs::Output::and_two))]
fn and_report(text: Text, report: Report) -> Text
    ensures { result ≡ report_of text report }
{
    match report {
        Report::Nothing => text.byte(32).byte(45),
        Report::Read(number, halfword) => and_two(text, READ, number as u64, halfword as u64),
        Report::Write(number) => and_one(text, WRITE, number as u64),
    }
}

// The beginning of a line: the call's word and a number.
#[tactic(auto, unfolding(crate::specs::Output::begun_of))]
fn begun(letters: u64, n: u64) -> Text
    ensures { result ≡ begun_of letters n }
{
    and_number(Text::empty().word(letters), n)
}

// A line of a word and a number.
#[tactic(auto, unfolding(crate::specs::Output::number_line))]
fn number_line(letters: u64, n: u64) -> Text
    ensures { result ≡ number_line letters n }
{
    begun(letters, n).byte(10)
}

// A line of a word and two numbers.
#[tactic(auto, unfolding(crate::specs::Output::pair_line))]
fn pair_line(letters: u64, a: u8, b: u64) -> Text
    ensures { result ≡ pair_line letters a b }
{
    and_number(begun(letters, a as u64), b).byte(10)
}

#[tactic(auto, unfolding(crate::specs::Output::slot_line))]
fn slot_line(number: u8, command: Command, report: Report) -> Text
    ensures { result ≡ slot_line number command report }
{
    and_report(and_command(begun(SLOT, number as u64), command), report).byte(10)
}

// `?` in the place of what a word does not pack.
#[tactic(auto, unfolding(crate::specs::Output::unknown_of))]
fn and_unknown(text: Text) -> Text
    ensures { result ≡ unknown_of text }
{
    text.byte(32).byte(63)
}

// The command that a word packs.
#[tactic(auto, unfolding(crate::specs::Output::packed_command))]
fn and_packed_command(text: Text, word: u64) -> Text
    ensures { result ≡ packed_command text word }
{
    if packing::packs_command(word) {
        return and_command(text, packing::unpack_command(word));
    }
    and_unknown(text)
}

// The report that a word packs.
#[tactic(auto, unfolding(crate::specs::Output::packed_report))]
fn and_packed_report(text: Text, word: u64) -> Text
    ensures { result ≡ packed_report text word }
{
    if packing::packs_report(word) {
        return and_report(text, packing::unpack_report(word));
    }
    and_unknown(text)
}

// A slot's line from its two words.
#[tactic(auto, unfolding(crate::specs::Output::packed_line))]
fn packed_line(command: u64, report: u64) -> Text
    ensures { result ≡ packed_line command report }
{
    and_packed_report(and_packed_command(begun(SLOT, 0), command), report).byte(10)
}

#[tactic(auto, unfolding(crate::specs::Output::unknown_line))]
fn unknown_line() -> Text
    ensures { result ≡ unknown_line }
{
    Text::empty().byte(63).byte(10)
}

#[tactic(auto, unfolding(crate::specs::Output::cell_line))]
fn cell_line(number: u8, cell: Cell) -> Text
    ensures { result ≡ cell_line (record { number = number; cell = cell }) }
{
    let bank = and_number(begun(CELL, number as u64), cell.bank.0 as u64);
    and_number(and_number(bank, cell.row.0 as u64), cell.column.0 as u64).byte(10)
}

// The line of a tape's command, with its slot.
#[tactic(auto, unfolding(crate::specs::Output::record_line))]
fn record_line(slot: u64, command: Command) -> Text
    ensures { result ≡ record_line slot command }
{
    and_command(Text::empty().decimal(slot), command).byte(10)
}

// The line of a tape's run.
#[tactic(auto, unfolding(crate::specs::Output::run_line))]
fn run_line(slot: u64, count: u16) -> Text
    ensures { result ≡ run_line slot count }
{
    and_one(Text::empty().decimal(slot), NOP, count as u64).byte(10)
}

impl Answer {
    // The line that is written for it.
    #[tactic(auto, unfolding(crate::specs::Output::answer_line))]
    pub fn line(self) -> Text
        ensures { result ≡ answer_line self }
    {
        match self {
            Answer::Config(number) => number_line(CONFIG, number as u64),
            Answer::Read(number, request) => pair_line(READ, number, request as u64),
            Answer::Write(number, request) => pair_line(WRITE, number, request as u64),
            Answer::Slot(number, command, report) => slot_line(number, command, report),
            Answer::Backlog(number, backlog) => pair_line(BACKLOG, number, backlog as u64),
            Answer::Cell(number, cell) => cell_line(number, cell),
            Answer::Address(number, address) => pair_line(ADDRESS, number, address as u64),
            Answer::Bus(waiting) => number_line(BUS, waiting as u64),
            Answer::Slots(number, count) => pair_line(SLOTS, number, count as u64),
            Answer::Packed(command, report) => packed_line(command, report),
            Answer::Unknown => unknown_line(),
            Answer::Wrong(line) => number_line(ERROR, line),
            Answer::Record(slot, command) => record_line(slot, command),
            Answer::Run(slot, count) => run_line(slot, count),
            Answer::Ended(slots) => number_line(END, slots),
            Answer::Refused(number, place) => pair_line(REFUSED, number, place),
        }
    }
}

// Owns the reading of a script (REPLAY.md): a line to a call, byte by byte (`number` has its numbers).
#![tactic(auto)]

ghost use Rattle.std.specs.Prelude.{◌≡◌};
ghost use Rattle.script.specs.Line.{
  ruined_of,
  letter_of,
  figure_of,
  wide_of,
  next_of,
  kept_of,
  words_of,
  config_call,
  read_call,
  write_call,
  slot_call,
  backlog_call,
  cell_call,
  place_call,
  address_call,
  bus_call,
  slots_call,
  call_of,
  no_line,
  take_of,
  noted_of,
  line_call,
};

use address::{Bank, Cell, Column, Row};
use number::Number;

// One line of a script.
#[derive(Clone, Copy)]
pub enum Call {
    // An empty line or a comment.
    Nothing,
    // A line that is no call.
    Wrong,
    Config(u32, u32, u32, u32),
    Read(u32),
    Write(u32, u16),
    Slot(u16),
    Backlog,
    // The standalone map: CFG, ROW and an address, or a cell.
    Cell(u32, u32, u32),
    Address(u32, u32, Cell),
    // How many halfwords; they are the line's numbers.
    Bus(usize),
    // How many places for commands and for reports.
    Slots(u32, u32),
}

// A line of 255 bytes has room for so many numbers: `bus` and 126 times a space and a digit.
pub const NUMBERS: usize = 126;

// The words of a line, as far as they have been read. Its numbers are kept beside them, in an array that is lent (docs/DECISIONS.md).
#[derive(Clone, Copy)]
pub struct Words {
    // The first word, in the form that Text::word takes.
    name: u64,
    // Which word is under way, 0 for the name.
    at: usize,
    // The number under way.
    number: Number,
    // Is it known that the line is no call? The flags stand together: a gap behind each would be copied for every byte.
    wrong: bool,
    // Is one of the numbers before it more than a halfword?
    wide: bool,
}

// A line, as far as it has been read.
#[derive(Clone, Copy)]
pub struct Line {
    // How many bytes; 256 for more than 255.
    size: u16,
    // Does it begin with #?
    comment: bool,
    words: Words,
}

// The calls' words, in the form that Text::word takes.
// Numbers and not texts: `call_of` and `letter_of` of specs/Line compare a name as the number that its letters make, and `word_of` writes it so.
pub const CONFIG: u64 = 0x636f6e666967;

pub const READ: u64 = 0x72656164;

pub const WRITE: u64 = 0x7772697465;

pub const SLOT: u64 = 0x736c6f74;

pub const BACKLOG: u64 = 0x6261636b6c6f67;

pub const CELL: u64 = 0x63656c6c;

pub const ADDRESS: u64 = 0x61646472657373;

pub const BUS: u64 = 0x627573;

pub const SLOTS: u64 = 0x736c6f7473;

// The call `address`, from its five numbers.
#[tactic(auto, unfolding(crate::specs::Line::place_call))]
fn place(cfg: u32, row: u32, bank: u32, rownumber: u32, column: u32) -> Call
    ensures { result ≡ place_call cfg row bank rownumber column }
{
    let (Ok(bank), Ok(rownumber), Ok(column)) = (
        u8::try_from(bank),
        u16::try_from(rownumber),
        u16::try_from(column),
    ) else {
        return Call::Wrong;
    };
    let cell = Cell {
        bank: Bank(bank),
        row: Row(rownumber),
        column: Column(column),
    };
    Call::Address(cfg, row, cell)
}

// Is one of the numbers more than a halfword, where that is known of those before this one?
#[tactic(auto, unfolding(crate::specs::Line::wide_of))]
fn wider(wide: bool, value: u32) -> bool
    ensures { result ≡ wide_of wide value }
{
    65535 < value || wide
}

impl Words {
    // The line is no call.
    #[tactic(auto, unfolding(crate::specs::Line::ruined_of))]
    fn ruined(self) -> Words
        ensures { result ≡ ruined_of self }
    {
        Words {
            wrong: true,
            number: Number::Wrong,
            ..self
        }
    }

    // One byte more of the name: a small letter, where it has not eight letters already.
    #[tactic(auto, unfolding(crate::specs::Line::letter_of))]
    fn letter(self, byte: u8) -> Words
        ensures { result ≡ letter_of self byte }
    {
        match byte {
            b'a'..=b'z' if self.name <= 72057594037927935 => Words {
                name: self.name * 256 + byte as u64,
                ..self
            },
            _ => self.ruined(),
        }
    }

    // One byte more of a number.
    #[tactic(auto, unfolding(crate::specs::Line::figure_of))]
    fn figure(self, byte: u8) -> Words
        ensures { result ≡ figure_of self byte }
    {
        Words {
            number: self.number.take(byte),
            ..self
        }
    }

    // The word under way has ended, and the next one begins.
    #[tactic(auto, unfolding(crate::specs::Line::next_of))]
    fn next(self) -> Words
        ensures { result ≡ next_of self }
    {
        if self.at == 0 {
            return Words {
                at: 1,
                number: Number::Empty,
                ..self
            };
        }
        if NUMBERS < self.at {
            return self.ruined();
        }
        match self.number.value() {
            Some(value) => Words {
                at: self.at + 1,
                number: Number::Empty,
                wide: wider(self.wide, value),
                ..self
            },
            None => self.ruined(),
        }
    }

    // The word under way ends here: a number is put into its place.
    #[tactic(auto, unfolding(crate::specs::Line::kept_of))]
    fn keep(self, given: &mut [u32; NUMBERS])
        ensures { given.new ≡ kept_of self given.old }
    {
        if self.at == 0 || NUMBERS < self.at {
            return;
        }
        if let Some(value) = self.number.value() {
            given[self.at - 1] = value;
        }
    }

    // One byte more.
    #[tactic(auto, unfolding(crate::specs::Line::words_of))]
    fn take(self, byte: u8) -> Words
        ensures { result ≡ words_of self byte }
    {
        match byte {
            b' ' => self.next(),
            _ if self.at == 0 => self.letter(byte),
            _ => self.figure(byte),
        }
    }

    #[tactic(auto, unfolding(crate::specs::Line::config_call))]
    fn config(self, n: &[u32; NUMBERS]) -> Call
        ensures { result ≡ config_call self n.now }
    {
        if self.at == 5 {
            return Call::Config(n[0], n[1], n[2], n[3]);
        }
        Call::Wrong
    }

    #[tactic(auto, unfolding(crate::specs::Line::read_call))]
    fn read(self, n: &[u32; NUMBERS]) -> Call
        ensures { result ≡ read_call self n.now }
    {
        if self.at == 2 {
            return Call::Read(n[0]);
        }
        Call::Wrong
    }

    #[tactic(auto, unfolding(crate::specs::Line::write_call))]
    fn write(self, n: &[u32; NUMBERS]) -> Call
        ensures { result ≡ write_call self n.now }
    {
        match u16::try_from(n[1]) {
            Ok(halfword) if self.at == 3 => Call::Write(n[0], halfword),
            _ => Call::Wrong,
        }
    }

    #[tactic(auto, unfolding(crate::specs::Line::slot_call))]
    fn slot(self, n: &[u32; NUMBERS]) -> Call
        ensures { result ≡ slot_call self n.now }
    {
        match u16::try_from(n[0]) {
            Ok(halfword) if self.at == 2 => Call::Slot(halfword),
            _ => Call::Wrong,
        }
    }

    #[tactic(auto, unfolding(crate::specs::Line::backlog_call))]
    fn backlog(self) -> Call
        ensures { result ≡ backlog_call self }
    {
        if self.at == 1 {
            return Call::Backlog;
        }
        Call::Wrong
    }

    #[tactic(auto, unfolding(crate::specs::Line::cell_call))]
    fn cell(self, n: &[u32; NUMBERS]) -> Call
        ensures { result ≡ cell_call self n.now }
    {
        if self.at == 4 {
            return Call::Cell(n[0], n[1], n[2]);
        }
        Call::Wrong
    }

    #[tactic(auto, unfolding(crate::specs::Line::address_call))]
    fn address(self, n: &[u32; NUMBERS]) -> Call
        ensures { result ≡ address_call self n.now }
    {
        if self.at == 6 {
            return place(n[0], n[1], n[2], n[3], n[4]);
        }
        Call::Wrong
    }

    #[tactic(auto, unfolding(crate::specs::Line::bus_call))]
    fn bus(self) -> Call
        ensures { result ≡ bus_call self }
    {
        if self.at < 2 || self.wide {
            return Call::Wrong;
        }
        Call::Bus(self.at - 1)
    }

    #[tactic(auto, unfolding(crate::specs::Line::slots_call))]
    fn slots(self, n: &[u32; NUMBERS]) -> Call
        ensures { result ≡ slots_call self n.now }
    {
        let commands = n[0];
        let reports = n[1];
        if 4096 < commands {
            return Call::Wrong;
        }
        if 4096 < reports {
            return Call::Wrong;
        }
        if self.at == 3 {
            return Call::Slots(commands, reports);
        }
        Call::Wrong
    }

    // The call that the words make, the last one ended.
    #[tactic(auto, unfolding(crate::specs::Line::call_of))]
    fn call(self, given: &[u32; NUMBERS]) -> Call
        ensures { result ≡ call_of self given.now }
    {
        if self.wrong {
            return Call::Wrong;
        }
        match self.name {
            CONFIG => self.config(given),
            READ => self.read(given),
            WRITE => self.write(given),
            SLOT => self.slot(given),
            BACKLOG => self.backlog(),
            CELL => self.cell(given),
            ADDRESS => self.address(given),
            BUS => self.bus(),
            SLOTS => self.slots(given),
            _ => Call::Wrong,
        }
    }
}

impl Line {
    // No byte yet.
    #[tactic(auto, unfolding(crate::specs::Line::no_words, crate::specs::Line::no_line))]
    pub fn empty() -> Line
        ensures { result ≡ no_line }
    {
        let words = Words {
            wrong: false,
            name: 0,
            at: 0,
            number: Number::Empty,
            wide: false,
        };
        Line {
            size: 0,
            comment: false,
            words,
        }
    }

    // The byte that is taken next: where it ends a number, that is put into its place.
    #[tactic(auto, unfolding(crate::specs::Line::noted_of))]
    pub fn note(self, byte: u8, given: &mut [u32; NUMBERS])
        ensures { given.new ≡ noted_of self byte given.old }
    {
        if byte == b' ' {
            self.end(given);
        }
    }

    // The line ends here: so does its last number.
    pub fn end(self, given: &mut [u32; NUMBERS])
        ensures { given.new ≡ kept_of self.words given.old }
    {
        self.words.keep(given);
    }

    // One byte more, which is no line feed.
    #[tactic(auto, unfolding(crate::specs::Line::take_of))]
    pub fn take(self, byte: u8) -> Line
        ensures { result ≡ take_of self byte }
    {
        let words = self.words.take(byte);
        match self.size {
            0 => Line {
                size: 1,
                comment: byte == b'#',
                words,
            },
            1..=254 => Line {
                size: self.size + 1,
                words,
                ..self
            },
            _ => Line {
                size: 256,
                words,
                ..self
            },
        }
    }

    // The call that the line is, where it ends here, with its numbers.
    #[tactic(auto, unfolding(crate::specs::Line::line_call))]
    pub fn call(self, given: &[u32; NUMBERS]) -> Call
        ensures { result ≡ line_call self given.now }
    {
        if self.size == 0 {
            return Call::Nothing;
        }
        if self.comment {
            return Call::Nothing;
        }
        if 255 < self.size {
            return Call::Wrong;
        }
        self.words.next().call(given)
    }
}

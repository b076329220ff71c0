// Owns the search for the rule that a command of a tape breaks first (document 02, (v)): rules by rising number, in a rule the banks, and what a rule asks of a bank, by the
// stamps of the past commands.
#![tactic(auto)]

ghost use Rattle.std.specs.Prelude.{◌+◌, ◌<◌, ◌≤◌, ◌≡◌, not, ◌||◌, leb, eqb, get_or, is_none};
ghost use Rattle.config.specs.Accepted.{Accepted};
ghost use Rattle.device.specs.Rules.{all_hold, R7, requirements, legal_of};
ghost use Rattle.stamps.specs.Stamps.{open_at, by_stamps};
ghost use Rattle.violation.specs.Violation.{violation_of, violation_in};
ghost use Rattle.violation.specs.Walk.{inside_of, act_holds, access_holds, wrt_holds, pre_holds, deac_holds, rest_holds, refr_holds, mrs_holds, holds_of, named_of};

use address::{Bank, Column, Row};
use command::Command;
use config::Config;
use stamps::Stamps;

// A broken rule, and the bank that is named for it.
#[derive(Clone, Copy, Debug, PartialEq, Eq)]
pub struct Violation {
    pub rule: u8,
    pub bank: u8,
}

// R1 for a bank and a row or column.
fn inside(own: Bank, banks: u8, n: u16, width: u8) -> bool
    requires { (banks ≤ 13) × (width ≤ 13) }
    ensures { result ≡ inside_of own.0 banks n width }
{
    address::inside(own.0 as u16, banks) && address::inside(n, width)
}

// What a rule asks of the command's own bank it asks of no other: is it open, and is a distance kept from the command that stands at its number from a place on?

fn own_open(past: &Stamps, own: Bank, bank: u8) -> bool
    requires { bank < 4 }
    ensures { result ≡ (not (eqb bank own.0) || open_at past.now.last bank) }
{
    bank != own.0 || past.is_open(bank as usize)
}

fn own_closed(past: &Stamps, own: Bank, bank: u8) -> bool
    requires { bank < 4 }
    ensures { result ≡ (not (eqb bank own.0) || not (open_at past.now.last bank)) }
{
    bank != own.0 || !past.is_open(bank as usize)
}

fn own_kept(past: &Stamps, from: usize, own: Bank, bank: u8, distance: u8) -> bool
    requires { (from ≤ 12) × (bank < 4) }
    ensures { result ≡ (not (eqb bank own.0) || leb (get_or past.now.last (from + bank) 0 + distance) past.now.clock) }
{
    bank != own.0 || past.kept(from + bank as usize, distance)
}

// R7 looks at the other banks' ACTs, and is asked of the command's own bank too: it names that.
fn own_apart(c: Config, past: &Stamps, own: Bank, bank: u8) -> bool
    ensures { result ≡ (not (eqb bank own.0) || all_hold (R7 (by_stamps c past.now.last past.now.clock) own.0)) }
{
    bank != own.0 || tape_legality::all_apart(c, past, own.0)
}

// Does a rule hold for a bank? One function for each command; what a command doesn't have to keep holds. Rules are numbers here, and no enum: they are the paper's own
// numbers, and the walk counts them.

#[tactic(auto, unfolding(crate::specs::Walk::act_holds))]
fn act_holds(c: Config, past: &Stamps, own: Bank, row: Row, rule: u8, bank: u8) -> bool
    requires { Accepted c × (bank < 4) }
    ensures { result ≡ act_holds c past.now.last past.now.clock own row rule bank }
{
    match rule {
        1 => inside(own, c.geometry.banks, row.0, c.geometry.rows),
        2 => tape_legality::settled(c, past),
        3 => past.is_programmed(),
        4 => own_closed(past, own, bank),
        5 => own_kept(past, 4, own, bank, c.rp),
        6 => own_kept(past, 0, own, bank, c.rc),
        7 => own_apart(c, past, own, bank),
        _ => true,
    }
}

// READ, and WRT but for R10.
#[tactic(auto, unfolding(crate::specs::Walk::access_holds))]
fn access_holds(c: Config, past: &Stamps, own: Bank, column: Column, rule: u8, bank: u8) -> bool
    requires { Accepted c × (bank < 4) }
    ensures { result ≡ access_holds c past.now.last past.now.clock own column rule bank }
{
    match rule {
        1 => inside(own, c.geometry.banks, column.0, c.geometry.columns),
        2 => tape_legality::settled(c, past),
        8 => own_open(past, own, bank),
        9 => own_kept(past, 0, own, bank, c.rcd),
        _ => true,
    }
}

#[tactic(auto, unfolding(crate::specs::Walk::wrt_holds))]
fn wrt_holds(c: Config, past: &Stamps, own: Bank, column: Column, rule: u8, bank: u8) -> bool
    requires { Accepted c × (bank < 4) }
    ensures { result ≡ wrt_holds c past.now.last past.now.clock own column rule bank }
{
    if rule == 10 {
        return past.kept(11, c.latency + 2);
    }
    access_holds(c, past, own, column, rule, bank)
}

#[tactic(auto, unfolding(crate::specs::Walk::pre_holds))]
fn pre_holds(c: Config, past: &Stamps, own: Bank, rule: u8, bank: u8) -> bool
    requires { Accepted c × (bank < 4) }
    ensures { result ≡ pre_holds c past.now.last past.now.clock own rule bank }
{
    match rule {
        1 => address::inside(own.0 as u16, c.geometry.banks),
        2 => tape_legality::settled(c, past),
        11 => own_open(past, own, bank),
        12 => own_kept(past, 0, own, bank, c.ras),
        13 => own_kept(past, 12, own, bank, c.wr),
        _ => true,
    }
}

#[tactic(auto, unfolding(crate::specs::Walk::deac_holds))]
fn deac_holds(c: Config, past: &Stamps, rule: u8, bank: u8) -> bool
    requires { bank < 4 }
    ensures { result ≡ deac_holds c past.now.last past.now.clock rule bank }
{
    match rule {
        2 => tape_legality::settled(c, past),
        12 => tape_legality::free(past, 0, bank as usize, c.ras),
        13 => tape_legality::free(past, 12, bank as usize, c.wr),
        _ => true,
    }
}

// What REFR and MRS have in common.
#[tactic(auto, unfolding(crate::specs::Walk::rest_holds))]
fn rest_holds(c: Config, past: &Stamps, rule: u8, bank: u8) -> bool
    requires { bank < 4 }
    ensures { result ≡ rest_holds c past.now.last past.now.clock rule bank }
{
    match rule {
        2 => tape_legality::settled(c, past),
        14 => !past.is_open(bank as usize),
        15 => past.kept(10, c.rp),
        _ => true,
    }
}

#[tactic(auto, unfolding(crate::specs::Walk::refr_holds))]
fn refr_holds(c: Config, past: &Stamps, rule: u8, bank: u8) -> bool
    requires { bank < 4 }
    ensures { result ≡ refr_holds c past.now.last past.now.clock rule bank }
{
    if rule == 16 {
        return past.kept(bank as usize, c.rc);
    }
    rest_holds(c, past, rule, bank)
}

#[tactic(auto, unfolding(crate::specs::Walk::mrs_holds))]
fn mrs_holds(c: Config, past: &Stamps, word: u16, rule: u8, bank: u8) -> bool
    requires { bank < 4 }
    ensures { result ≡ mrs_holds c past.now.last past.now.clock word rule bank }
{
    if rule == 1 {
        return word == 16 * (c.latency as u16);
    }
    rest_holds(c, past, rule, bank)
}

// Does a rule hold for a bank?
#[tactic(auto, unfolding(crate::specs::Walk::holds_of))]
fn holds(c: Config, past: &Stamps, command: Command, rule: u8, bank: u8) -> bool
    requires { Accepted c × (bank < 4) }
    ensures { result ≡ holds_of c past.now.last past.now.clock command rule bank }
{
    match command {
        Command::Nop => true,
        Command::Act(own, row) => act_holds(c, past, own, row, rule, bank),
        Command::Read(own, column) => access_holds(c, past, own, column, rule, bank),
        Command::Wrt(own, column, _) => wrt_holds(c, past, own, column, rule, bank),
        Command::Pre(own) => pre_holds(c, past, own, rule, bank),
        Command::Deac => deac_holds(c, past, rule, bank),
        Command::Refr => refr_holds(c, past, rule, bank),
        Command::Mrs(word) => mrs_holds(c, past, word, rule, bank),
    }
}

// The bank that is named for a rule that does not hold for a bank: none for R1 to R3, R10 and R15, which are about no bank, and else that bank.
#[tactic(auto, unfolding(crate::specs::Walk::named_of))]
fn named(rule: u8, bank: u8) -> u8
    ensures { result ≡ named_of rule bank }
{
    match rule {
        1 => 0,
        2 => 0,
        3 => 0,
        10 => 0,
        15 => 0,
        _ => bank,
    }
}

// The first rule that a command breaks, and its bank; none for a legal command.
#[tactic(auto, using(crate::proofs::Grid::value_is, crate::proofs::Grid::none_is, crate::proofs::Steps::value_broken, crate::proofs::Steps::none_broken, crate::proofs::Steps::banks_end, crate::proofs::Steps::rules_end))]
pub fn first(c: Config, past: &Stamps, command: Command) -> Option<Violation>
    requires { Accepted c }
    ensures value { violation_in result ≡ violation_of (requirements c (by_stamps c past.now.last past.now.clock) command) }
    ensures none { is_none result ≡ legal_of c (by_stamps c past.now.last past.now.clock) command }
{
    let mut found = None;
    'search: for rule in 1..17 {
        for bank in 0..4 {
            if !holds(c, past, command, rule, bank) {
                found = Some(Violation {
                    rule,
                    bank: named(rule, bank),
                });
                break 'search;
            }
        }
    }
    found
}

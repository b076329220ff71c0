// Prints the slots of a fixed list of requests for a person, to be held against E5 and E6 of document 01: E1's machine, with a
// write and a read of address 0 queued before the first slot.
#![tactic(auto)]

use command::Command;
use plan::Report;
use queue::Kind;
use refusal::number_in;
use sequencer::Machine;
use std::io;

// The halfword that is written, and that the SDRAM gives back.
const HALFWORD: u16 = 7;
// E1's CL: so many slots after a READ its halfword is on the bus.
const LATENCY: u64 = 2;

const SLOTS: u64 = 362;

#[derive(Drop)]
struct Show {
    machine: Machine,
    // How many idle slots came last and are not printed yet.
    idle: u64,
    // The slot in which the last READ's halfword is on the bus, if there was a READ.
    due: Option<u64>,
}

fn tell_command(rt: &impl Print, command: Command) -> io::Result<()> {
    match command {
        Command::Nop => print!(rt; "NOP"),
        Command::Act(bank, row) => print!(rt; "ACT bank {} row {}", bank.0, row.0),
        Command::Read(bank, column) => print!(rt; "READ bank {} column {}", bank.0, column.0),
        Command::Wrt(bank, column, halfword) => {
            print!(rt;
                "WRT bank {} column {} halfword {halfword}",
                bank.0, column.0
            )
        }
        Command::Pre(bank) => print!(rt; "PRE bank {}", bank.0),
        Command::Deac => print!(rt; "DEAC"),
        Command::Refr => print!(rt; "REFR"),
        Command::Mrs(word) => print!(rt; "MRS word {word}"),
    }
}

fn tell_report(rt: &impl Print, report: Report) -> io::Result<()> {
    match report {
        Report::Nothing => println!(rt),
        Report::Read(number, halfword) => {
            println!(rt; ", reports read {number} halfword {halfword}")
        }
        Report::Write(number) => println!(rt; ", reports write {number}"),
    }
}

// The idle slots before slot t.
fn tell_idle(rt: &impl Print, t: u64, idle: u64) -> io::Result<()> {
    if idle == 0 || t < idle {
        return Ok(());
    }
    let first = t - idle;
    if idle == 1 {
        return println!(rt; "slot {first}: NOP");
    }
    println!(rt; "slots {first} to {}: NOP", t - 1)
}

fn tell_slot(rt: &impl Print, t: u64, command: Command, report: Report) -> io::Result<()> {
    print!(rt; "slot {t}: ")?;
    tell_command(rt, command)?;
    tell_report(rt, report)
}

// What an SDRAM has on the bus in slot t; the machine ignores the bus in all other slots.
fn bus(t: u64, due: Option<u64>) -> u16 {
    if due == Some(t) { HALFWORD } else { 0 }
}

fn due_after(t: u64, due: Option<u64>, command: Command) -> Option<u64> {
    match command {
        Command::Read(_, _) => Some(t.wrapping_add(LATENCY)),
        _ => due,
    }
}

// Slot t.
fn step(rt: &impl Print, before: Show, t: u64) -> io::Result<Show> {
    let slot = before.machine.slot(bus(t, before.due));
    let machine = slot.machine;
    let due = due_after(t, before.due, slot.command);
    if matches!((slot.command, slot.report), (Command::Nop, Report::Nothing)) {
        return Ok(Show {
            machine,
            idle: before.idle.wrapping_add(1),
            due,
        });
    }
    tell_idle(rt, t, before.idle)?;
    tell_slot(rt, t, slot.command, slot.report)?;
    Ok(Show {
        machine,
        idle: 0,
        due,
    })
}

fn run(rt: &impl Print, start: Show) -> io::Result<Show> {
    let mut show = start;
    for t in 1..=SLOTS {
        show = step(rt, show, t)?;
    }
    Ok(show)
}

// E1's machine.
fn configured(rt: &impl Print) -> io::Result<Machine> {
    let answer = Machine::configure(0x4400, 0, 27, 0);
    println!(rt;
        "CFG 0x4400, ROW 0, REF 27, TIM 0: answer {}",
        number_in(&answer.answer)
    )?;
    Ok(answer.machine)
}

fn after_write(rt: &impl Print, m: Machine) -> io::Result<Machine> {
    let answer = m.request(Kind::Write, 0, HALFWORD);
    println!(rt;
        "write to address 0, halfword {HALFWORD}: answer {}, request {}",
        number_in(&answer.answer),
        answer.answer.unwrap_or(0)
    )?;
    Ok(answer.machine)
}

fn after_read(rt: &impl Print, m: Machine) -> io::Result<Machine> {
    let answer = m.request(Kind::Read, 0, 0);
    println!(rt;
        "read of address 0: answer {}, request {}",
        number_in(&answer.answer),
        answer.answer.unwrap_or(0)
    )?;
    Ok(answer.machine)
}

fn main(rt: HostRuntime) -> io::Result<()> {
    let written = after_write(&rt, configured(&rt)?)?;
    let machine = after_read(&rt, written)?;
    let end = run(
        &rt,
        Show {
            machine,
            idle: 0,
            due: None,
        },
    )?;
    tell_idle(&rt, SLOTS + 1, end.idle)
}

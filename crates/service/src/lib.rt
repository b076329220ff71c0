// Owns the code of a slot's plan (document 01, "Start" and "A service slot"; `plan` has the rules): the action's next command if it is legal,
// otherwise NOP, and what follows. What the command starts is noted in the past at once.
#![tactic(auto, using(crate::proofs::Laws::sent, crate::proofs::Laws::refused, aging::proofs::Slot::noted_nop), unfolding(plan::specs::Plan::tries))]

ghost use Rattle.std.specs.Prelude.{◌-◌, ◌≡◌};
ghost use Rattle.config.specs.Accepted.{Shaped};
ghost use Rattle.ages.specs.Ages.{row_at, by_ages};
ghost use Rattle.command.specs.declared.Command.TheVariants.{Nop, Act, Pre, Deac, Refr, Mrs};
ghost use Rattle.plan.specs.declared.Action.TheVariants.{InitRefresh, InitMode, InitSettle, Access};
ghost use Rattle.queue.specs.Places.{request_at};
ghost use Rattle.plan.specs.Actions.{under_way};
ghost use Rattle.plan.specs.Plan.{
  tries,
  mode_word,
  quietly,
  after_pause,
  after_init_refresh,
  cycle_left,
  read_plan,
  write_plan,
  transfer_plan,
  access_plan,
  refresh_plan,
  plan_of,
  counters_after,
};
ghost use Rattle.service.specs.Serve.{carried_with, rest_of, taken_of, latency_of, Conducted};

use address::{Bank, Cell, Row};
use ages::Past;
use command::Command;
use config::Config;
use plan::{Action, Report};
use queue::{Kind, Queue, Request};
use refresh::Counters;

// A plan carried out: the slot's command, the next action, the report, whether the request under way leaves the queue, and whether the backlog falls.
#[derive(Clone, Copy)]
pub struct Carried {
    pub command: Command,
    pub action: Action,
    pub report: Report,
    pub leaves: bool,
    pub refreshes: bool,
}

// The counters, after a REFR that was owed if one was sent.
#[tactic(auto, unfolding(plan::specs::Plan::counters_after))]
pub fn counters_after(n: Counters, refreshes: bool) -> Counters
    ensures { result ≡ counters_after n refreshes }
{
    if refreshes {
        return n.refreshed();
    }
    n
}

// A command after which nothing but the next action follows.
#[tactic(auto, unfolding(crate::specs::Serve::carried_with, plan::specs::Plan::quietly))]
fn quiet(command: Command, action: Action) -> Carried
    ensures result_value { result ≡ carried_with command (quietly action) }
    ensures command_is { result.command ≡ command }
{
    Carried {
        command,
        action,
        report: Report::Nothing,
        leaves: false,
        refreshes: false,
    }
}

// A NOP.
#[tactic(auto, unfolding(crate::specs::Serve::rest_of))]
fn rest(action: Action) -> Carried
    ensures result_value { result ≡ rest_of action }
    ensures command_is { result.command ≡ Nop }
{
    quiet(Command::Nop, action)
}

// The pause has so many slots left, this one included.
#[tactic(auto, unfolding(plan::specs::Plan::after_pause))]
fn after_pause(n: u16) -> Action
    ensures { result ≡ after_pause n }
{
    if n <= 1 {
        return Action::InitPrecharge;
    }
    Action::PowerUp(n - 1)
}

// The initialisation has so many REFR left, this one included.
#[tactic(auto, unfolding(plan::specs::Plan::after_init_refresh))]
fn after_init_refresh(n: u16) -> Action
    ensures { result ≡ after_init_refresh n }
{
    if n <= 1 {
        return Action::InitMode;
    }
    Action::InitRefresh(n - 1)
}

// What is left of a refresh after the first of so many slots.
#[tactic(auto, unfolding(plan::specs::Plan::cycle_left))]
fn refresh_cycle(slots: u16) -> Action
    ensures { result ≡ cycle_left (slots - 1) }
{
    if slots <= 1 {
        return Action::Idle;
    }
    Action::RefreshCycle(slots - 1)
}

// The slot of a read's halfword.
#[tactic(auto, unfolding(crate::specs::Serve::taken_of, crate::specs::Serve::carried_with, plan::specs::Plan::taken_plan))]
fn taken(r: Request, bus: u16) -> Carried
    ensures result_value { result ≡ taken_of r bus }
    ensures command_is { result.command ≡ Nop }
{
    Carried {
        command: Command::Nop,
        action: Action::Turnaround,
        report: Report::Read(r.number, bus),
        leaves: true,
        refreshes: false,
    }
}

// A slot after a READ for the request at place i.
#[tactic(auto, unfolding(crate::specs::Serve::latency_of))]
fn latency(i: u16, left: u16, queue: &Queue, bus: u16) -> Carried
    ensures result_value { result ≡ latency_of i left (request_at queue.now.places i) bus }
    ensures command_is { result.command ≡ Nop }
{
    if left <= 1 {
        return taken(queue.request_at(i), bus);
    }
    rest(Action::CasLatency(i, left - 1))
}

// The READ for the request at place i with this cell.
#[tactic(auto, using(crate::proofs::Laws::sent, crate::proofs::Laws::refused, aging::proofs::Slot::noted_nop), unfolding(plan::specs::Plan::read_plan, plan::specs::Plan::tries))]
fn read(c: Config, past: &mut Past, i: u16, cell: Cell) -> Carried
    requires { Shaped c.geometry }
    ensures { Conducted c past.old past.new (read_plan c i cell) result }
{
    let bank = cell.bank;
    let column = cell.column;
    if legality::read_legal(c, past, bank, column) {
        aging::note_read(past);
        return quiet(
            Command::Read(bank, column),
            Action::CasLatency(i, c.latency as u16),
        );
    }
    rest(Action::Access(i))
}

// The WRT for the request at place i with this cell. Its number and halfword are read only where they are sent: held from the start of an access, they cost in
// each of its slots.
#[tactic(auto, using(crate::proofs::Laws::sent, crate::proofs::Laws::refused, aging::proofs::Slot::noted_nop), unfolding(plan::specs::Plan::write_plan, crate::specs::Serve::carried_with))]
fn write(c: Config, past: &mut Past, queue: &Queue, i: u16, cell: Cell) -> Carried
    requires { Shaped c.geometry }
    ensures { Conducted c past.old past.new (write_plan i (request_at queue.now.places i) cell) result }
{
    let bank = cell.bank;
    let column = cell.column;
    if legality::wrt_legal(c, past, bank, column) {
        aging::note_wrt(past, bank);
        let r = queue.request_at(i);
        return Carried {
            command: Command::Wrt(bank, column, r.halfword),
            action: Action::Idle,
            report: Report::Write(r.number),
            leaves: true,
            refreshes: false,
        };
    }
    rest(Action::Access(i))
}

// The READ or the WRT.
#[tactic(auto, unfolding(plan::specs::Plan::transfer_plan, plan::specs::Plan::write_plan))]
fn transfer(c: Config, past: &mut Past, queue: &Queue, i: u16, cell: Cell) -> Carried
    requires { Shaped c.geometry }
    ensures { Conducted c past.old past.new (transfer_plan c i (request_at queue.now.places i) cell (request_at queue.now.places i).kind) result }
{
    let kind = queue.request_at(i).kind;
    match kind {
        Kind::Read => read(c, past, i, cell),
        Kind::Write => write(c, past, queue, i, cell),
    }
}

// The PRE for the request at place i.
fn precharge(c: Config, past: &mut Past, i: u16, bank: Bank) -> Carried
    requires { Shaped c.geometry }
    ensures { Conducted c past.old past.new (tries (Pre bank) (Access i) (Access i)) result }
{
    if legality::pre_legal(c, past, bank) {
        aging::note_pre(past, bank);
        return quiet(Command::Pre(bank), Action::Access(i));
    }
    rest(Action::Access(i))
}

// The ACT for the request at place i.
fn activate(c: Config, past: &mut Past, i: u16, bank: Bank, row: Row) -> Carried
    requires { Shaped c.geometry }
    ensures { Conducted c past.old past.new (tries (Act bank row) (Access i) (Access i)) result }
{
    if legality::act_legal(c, past, bank, row) {
        aging::note_act(past, bank, row);
        return quiet(Command::Act(bank, row), Action::Access(i));
    }
    rest(Action::Access(i))
}

// The access's next command: PRE, ACT, or READ or WRT.
#[tactic(auto, unfolding(plan::specs::Plan::access_plan, ages::specs::Ages::open_rows))]
fn access_to(c: Config, past: &mut Past, queue: &Queue, i: u16, cell: Cell) -> Carried
    requires { Shaped c.geometry }
    ensures { Conducted c past.old past.new (access_plan c (row_at past.old cell.bank.0) i (request_at queue.now.places i) cell) result }
{
    let bank = cell.bank;
    let row = cell.row;
    match past.open_row(bank) {
        Some(open) if open.0 == row.0 => transfer(c, past, queue, i, cell),
        Some(_) => precharge(c, past, i, bank),
        None => activate(c, past, i, bank, row),
    }
}

// The access of the request at place i: to the cell of its address.
#[tactic(auto, unfolding(plan::specs::Plan::plan_of))]
fn access(c: Config, past: &mut Past, queue: &Queue, i: u16) -> Carried
    requires { Shaped c.geometry }
    ensures { Conducted c past.old past.new (plan_of c (by_ages c past.old) (request_at queue.now.places i) (Access i) 0) result }
{
    let asked = queue.request_at(i);
    let geometry = c.geometry;
    let cell = asked.cell(geometry);
    access_to(c, past, queue, i, cell)
}

// DEAC, and then `next`; until it is legal, `stays`.
fn precharge_all(c: Config, past: &mut Past, stays: Action, next: Action) -> Carried
    ensures { Conducted c past.old past.new (tries Deac stays next) result }
{
    if legality::deac_legal(c, past) {
        aging::note_deac(past);
        return quiet(Command::Deac, next);
    }
    rest(stays)
}

// One of the initialisation's REFRs, of which so many are left.
fn init_refresh(c: Config, past: &mut Past, n: u16) -> Carried
    ensures { Conducted c past.old past.new (tries Refr (InitRefresh n) (after_init_refresh n)) result }
{
    if legality::refr_legal(c, past) {
        aging::note_refr(past);
        return quiet(Command::Refr, after_init_refresh(n));
    }
    rest(Action::InitRefresh(n))
}

// The REFR of a refresh.
#[tactic(auto, using(crate::proofs::Laws::sent, crate::proofs::Laws::refused, aging::proofs::Slot::noted_nop), unfolding(plan::specs::Plan::refresh_plan, crate::specs::Serve::carried_with))]
fn refresh_slot(c: Config, past: &mut Past) -> Carried
    ensures { Conducted c past.old past.new (refresh_plan c) result }
{
    if legality::refr_legal(c, past) {
        aging::note_refr(past);
        return Carried {
            command: Command::Refr,
            action: refresh_cycle(c.rfc as u16),
            report: Report::Nothing,
            leaves: false,
            refreshes: true,
        };
    }
    rest(Action::Refresh)
}

// The MRS of the initialisation.
fn mode_slot(c: Config, past: &mut Past) -> Carried
    ensures { Conducted c past.old past.new (tries (Mrs (mode_word c)) InitMode InitSettle) result }
{
    let word = 16 * (c.latency as u16);
    if legality::mrs_legal(c, past, word) {
        aging::note_mrs(past);
        return quiet(Command::Mrs(word), Action::InitSettle);
    }
    rest(Action::InitMode)
}

// The slot of an action; `queue` has its request, and `bus` is the halfword that the bus carries.
#[tactic(auto, using(crate::proofs::Laws::rest_conducts, crate::proofs::Laws::latency_conducts, aging::proofs::Slot::noted_nop), unfolding(plan::specs::Plan::plan_of))]
pub fn serve(c: Config, past: &mut Past, queue: &Queue, action: Action, bus: u16) -> Carried
    requires { Shaped c.geometry }
    ensures { Conducted c past.old past.new (plan_of c (by_ages c past.old) (request_at queue.now.places (under_way action)) action bus) result }
{
    match action {
        Action::PowerUp(n) => rest(after_pause(n)),
        Action::InitPrecharge => precharge_all(
            c,
            past,
            Action::InitPrecharge,
            Action::InitRefresh(8),
        ),
        Action::InitRefresh(n) => init_refresh(c, past, n),
        Action::InitMode => mode_slot(c, past),
        Action::InitSettle => rest(Action::Idle),
        Action::Idle => rest(Action::Idle),
        Action::Access(i) => access(c, past, queue, i),
        Action::CasLatency(i, left) => latency(i, left, queue, bus),
        Action::Turnaround => rest(Action::Idle),
        Action::PrechargeAll => precharge_all(c, past, Action::PrechargeAll, Action::Refresh),
        Action::Refresh => refresh_slot(c, past),
        Action::RefreshCycle(left) => rest(refresh_cycle(left)),
    }
}

//! Calls of a debugger and looks at it, and what they answer, as plain values.

ghost use Rattle.std.specs.Prelude.{◌≡◌, IfSome};
ghost use Rattle.lgp_table.specs.Interleaving.{at_boundary};

use crate::address;
use crate::loader::image;
use lgp_assembler::Image;
use lgp_debugger::{
    Debugger, HitFault, IdleFault, Ran, Reason, RuleFault, RunFault, RunRefusal, StepFault,
};
use lgp_flexo::{Code, read_tape_text};
use lgp_history::{BackFault, History, Rule};
use lgp_loader::LoadFault;
use lgp_machine::{Look, Machine, MountFault, PutFault};
use lgp_table::{Action, Mode, Status};
use lgp_word::Word;
use std::alloc::{AllocError, Allocator};

/// A rule by the number of its address.
#[derive(Clone, Copy)]
pub enum Named {
    At(u16),
    Changed(u16),
}

/// A button of the console.
#[derive(Clone, Copy)]
pub enum Button {
    Start,
    StartCompute,
    Normal,
    OneOperation,
    Manual,
    Execute,
}

/// A call of a debugger or a look at it, and last what it has to answer.
pub enum Row {
    Put(u16, u32, Result<(), PutFault>),
    /// Whether the press is live.
    Press(Button, bool),
    /// What the order costs.
    Step(Result<u64, StepFault>),
    /// A given number of orders, and how many are done until one is refused.
    Steps(u64, u64),
    Idle(u64, Result<(), IdleFault>),
    /// A tape by its text; a refused one is reported by the number of codes handed back.
    Mount(&'static [u8], Result<(), (MountFault, usize)>),
    Back(u64, Result<(), BackFault>),
    AddRule(Named, Result<u8, RuleFault>),
    /// The same rule a given number of times, and how many are added until one is refused.
    AddRules(Named, u64, u64),
    RemoveRule(u8, Option<Named>),
    /// A run of at most a given number of orders: how many are done, and why it ends.
    Ran(u64, u64, Reason),
    /// The same where no rule stops it.
    RanFreely(u64, u64, Reason),
    /// A run that the clock's end stops: how many orders are done.
    Stopped(u64, u64),
    StoppedFreely(u64, u64),
    /// One order of a run.
    GoOn(Result<Option<u8>, StepFault>),
    LastHit(Result<(u64, u8), HitFault>),
    /// A program by its source, and how many orders the load takes.
    Load(&'static [u8], Result<u64, LoadFault>),
    /// What shows at a boundary, but for mode, switches and clock: the status, the counter, the accumulator, the register, and whether
    /// the reader is on.
    All(Status, u16, u32, u32, bool),
    Clock(u64),
    /// How many steps and how many orders are kept.
    Kept((u64, u64)),
    /// How many codes are printed, and the last one's number.
    Printed((usize, Option<u8>)),
    TapeLeft(usize),
    WordAt(u16, u32),
}

/// The rule of a name.
fn rule_of(named: Named) -> Rule {
    match named {
        Named::At(number) => Rule::At(address(number)),
        Named::Changed(number) => Rule::Changed(address(number)),
    }
}

fn action_of(button: Button) -> Action {
    match button {
        Button::Start => Action::Start,
        Button::StartCompute => Action::StartCompute,
        Button::Normal => Action::Mode(Mode::Normal),
        Button::OneOperation => Action::Mode(Mode::OneOperation),
        Button::Manual => Action::Mode(Mode::Manual),
        Button::Execute => Action::Execute,
    }
}

// The debugger's methods without their contracts, which would fill the context of each test.

/// Puts a word at the address of a number.
pub fn put<H: History<A>, A: Allocator>(
    lab: &mut Debugger<H, A>,
    at: u16,
    bits: u32,
) -> Result<(), PutFault> {
    lab.put(address(at), Word::of_bits(bits))
}

/// Presses a button; true where the press was live.
pub fn press_button<H: History<A>, A: Allocator>(
    lab: &mut Debugger<H, A>,
    button: Button,
) -> Result<bool, AllocError> {
    lab.press(action_of(button))
}

/// An order, and what it costs.
pub fn step<H: History<A>, A: Allocator>(lab: &mut Debugger<H, A>) -> Result<u64, StepFault> {
    let outcome = lab.step()?;
    Ok(outcome.cost)
}

fn steps<H: History<A>, A: Allocator>(lab: &mut Debugger<H, A>, count: u64) -> u64 {
    for done in 0..count {
        if step(lab).is_err() {
            return done;
        }
    }
    count
}

/// Word times at rest.
pub fn idle<H: History<A>, A: Allocator>(
    lab: &mut Debugger<H, A>,
    times: u64,
) -> Result<(), IdleFault> {
    lab.idle(times)
}

/// Mounts a tape; a refused one is reported by the number of codes handed back.
pub fn mount<H: History<A>, A: Allocator>(
    lab: &mut Debugger<H, A>,
    codes: Vec<Code, A>,
) -> Result<(), (MountFault, usize)> {
    match lab.mount(codes) {
        Ok(()) => Ok(()),
        Err((fault, back)) => Err((fault, back.len())),
    }
}

/// Mounts a tape of a text; false also where that is no tape's.
fn is_mounted<H: History<A>, A: Allocator + Copy>(
    lab: &mut Debugger<H, A>,
    alloc: A,
    text: &[u8],
    wanted: Result<(), (MountFault, usize)>,
) -> bool {
    match read_tape_text(alloc, text) {
        Ok(codes) => mount(lab, codes) == wanted,
        Err(_) => false,
    }
}

/// Goes back by a given number of orders.
pub fn back<H: History<A>, A: Allocator>(
    lab: &mut Debugger<H, A>,
    orders: u64,
) -> Result<(), BackFault> {
    lab.back(orders)
}

/// Adds a rule, and answers its number.
pub fn add_rule<H: History<A>, A: Allocator>(
    lab: &mut Debugger<H, A>,
    named: Named,
) -> Result<u8, RuleFault> {
    lab.add_rule(rule_of(named))
}

fn add_rules<H: History<A>, A: Allocator>(
    lab: &mut Debugger<H, A>,
    named: Named,
    count: u64,
) -> u64 {
    for done in 0..count {
        if add_rule(lab, named).is_err() {
            return done;
        }
    }
    count
}

/// Takes the rule of a number out; whether it is this one, or whether there is none.
pub fn is_removed<H: History<A>, A: Allocator>(
    lab: &mut Debugger<H, A>,
    number: u8,
    wanted: Option<Named>,
) -> bool {
    let removed = lab.remove_rule(number);
    match wanted {
        Some(named) => removed == Some(rule_of(named)),
        None => removed.is_none(),
    }
}

/// Performs at most a given number of orders.
pub fn run<H: History<A>, A: Allocator>(
    lab: &mut Debugger<H, A>,
    limit: u64,
) -> Result<Ran, RunFault> {
    lab.run(limit)
}

/// Performs at most a given number of orders, and no rule stops them.
pub fn run_freely<H: History<A>, A: Allocator>(
    lab: &mut Debugger<H, A>,
    limit: u64,
) -> Result<Ran, RunFault> {
    lab.run_freely(limit)
}

/// The answer of a run that has ended.
pub fn ran(orders: u64, reason: Reason) -> Result<Ran, RunFault> {
    Ok(Ran { orders, reason })
}

/// The answer of one that the clock's end has stopped.
fn stopped(orders: u64) -> Result<Ran, RunFault> {
    let fault = RunRefusal::ClockEnd;
    Err(RunFault { orders, fault })
}

/// One order of a run, and the number of the rule that stops it there.
fn go_on<H: History<A>, A: Allocator>(lab: &mut Debugger<H, A>) -> Result<Option<u8>, StepFault> {
    lab.go_on()
}

/// Goes back to the latest order that a rule hits.
pub fn last_hit<H: History<A>, A: Allocator>(
    lab: &mut Debugger<H, A>,
) -> Result<(u64, u8), HitFault> {
    lab.last_hit()
}

/// Loads an image, and answers how many orders the loader took.
pub fn load<H: History<A>, A: Allocator + Copy, B: Allocator>(
    lab: &mut Debugger<H, A>,
    alloc: A,
    image: &Image<B>,
) -> Result<u64, LoadFault> {
    lab.load(alloc, image)
}

/// Whether the load of a source answers so; false also where it does not assemble.
fn is_loaded<H: History<A>, A: Allocator + Copy>(
    lab: &mut Debugger<H, A>,
    alloc: A,
    source: &[u8],
    wanted: Result<u64, LoadFault>,
) -> bool {
    match image(alloc, source) {
        Some(image) => load(lab, alloc, &image) == wanted,
        None => false,
    }
}

/// What the machine shows.
pub fn look<H: History<A>, A: Allocator>(lab: &Debugger<H, A>) -> Look {
    lab.look()
}

/// Status, counter, accumulator and register, and whether the reader is on.
fn all(look: &Look) -> (Status, u16, u32, u32, bool) {
    let (counter, register) = (look.counter.number(), look.register.get());
    (
        look.status,
        counter,
        look.accumulator,
        register,
        look.reader_on,
    )
}

/// The clock.
pub fn clock<H: History<A>, A: Allocator>(lab: &Debugger<H, A>) -> u64 {
    look(lab).clock
}

/// How many steps and how many orders are kept.
pub fn kept<H: History<A>, A: Allocator>(lab: &Debugger<H, A>) -> (u64, u64) {
    (lab.kept(), lab.orders_kept())
}

/// How many codes are printed, and the last one's number.
pub fn printed<H: History<A>, A: Allocator>(lab: &Debugger<H, A>) -> (usize, Option<u8>) {
    let codes = lab.machine().printed();
    let last = match codes.last() {
        Some(code) => Some(code.number()),
        None => None,
    };
    (codes.len(), last)
}

/// How many codes are left on the tape.
pub fn tape_left<H: History<A>, A: Allocator>(lab: &Debugger<H, A>) -> usize {
    match lab.machine().tape_left() {
        Some(codes) => codes.len(),
        None => 0,
    }
}

/// The word at the address of a number.
pub fn word_at<H: History<A>, A: Allocator>(lab: &Debugger<H, A>, at: u16) -> u32 {
    lab.machine().word(address(at)).get()
}

/// A new machine with one word at 0000.
fn machine_with<A: Allocator + Copy>(alloc: A, bits: u32) -> Option<Machine<A>>
    ensures { IfSome result (λ machine. machine ≡ at_boundary machine.state) }
{
    let mut machine = Machine::new(alloc).ok()?;
    match machine.put(address(0), Word::of_bits(bits)) {
        Ok(()) => Some(machine),
        Err(_) => None,
    }
}

/// A debugger of such a machine with a history.
pub fn with_order<H: History<A>, A: Allocator + Copy>(
    alloc: A,
    history: Result<H, AllocError>,
    bits: u32,
) -> Option<Debugger<H, A>> {
    let machine = machine_with(alloc, bits)?;
    match history {
        Ok(history) => Some(Debugger::new(machine, history)),
        Err(_) => None,
    }
}

/// Whether a look answers so.
fn is_seen<H: History<A>, A: Allocator>(lab: &Debugger<H, A>, row: &Row) -> bool {
    match row {
        Row::All(status, counter, accumulator, register, is_on) => {
            all(&look(lab)) == (*status, *counter, *accumulator, *register, *is_on)
        }
        Row::Clock(wanted) => clock(lab) == *wanted,
        Row::Kept(wanted) => kept(lab) == *wanted,
        Row::Printed(wanted) => printed(lab) == *wanted,
        Row::TapeLeft(wanted) => tape_left(lab) == *wanted,
        Row::WordAt(at, wanted) => word_at(lab, *at) == *wanted,
        _ => false,
    }
}

/// Whether orders, ways back or a look answer so.
fn is_performed<H: History<A>, A: Allocator>(lab: &mut Debugger<H, A>, row: &Row) -> bool {
    match row {
        Row::Step(wanted) => step(lab) == *wanted,
        Row::Steps(count, wanted) => steps(lab, *count) == *wanted,
        Row::Back(orders, wanted) => back(lab, *orders) == *wanted,
        Row::Ran(limit, orders, reason) => run(lab, *limit) == ran(*orders, *reason),
        Row::RanFreely(limit, orders, reason) => run_freely(lab, *limit) == ran(*orders, *reason),
        Row::Stopped(limit, orders) => run(lab, *limit) == stopped(*orders),
        Row::StoppedFreely(limit, orders) => run_freely(lab, *limit) == stopped(*orders),
        Row::GoOn(wanted) => go_on(lab) == *wanted,
        Row::LastHit(wanted) => last_hit(lab) == *wanted,
        _ => is_seen(lab, row),
    }
}

/// Whether steps that are no orders, new rules, or anything of the above answer so.
fn is_done<H: History<A>, A: Allocator>(lab: &mut Debugger<H, A>, row: &Row) -> bool {
    match row {
        Row::Put(at, bits, wanted) => put(lab, *at, *bits) == *wanted,
        Row::Press(button, wanted) => press_button(lab, *button) == Ok(*wanted),
        Row::Idle(times, wanted) => idle(lab, *times) == *wanted,
        Row::AddRule(named, wanted) => add_rule(lab, *named) == *wanted,
        Row::AddRules(named, count, wanted) => add_rules(lab, *named, *count) == *wanted,
        _ => is_performed(lab, row),
    }
}

/// Calls, and answers whether the call answers so.
pub fn is_answered<H: History<A>, A: Allocator + Copy>(
    lab: &mut Debugger<H, A>,
    alloc: A,
    row: &Row,
) -> bool {
    match row {
        Row::Mount(text, wanted) => is_mounted(lab, alloc, text, *wanted),
        Row::RemoveRule(number, wanted) => is_removed(lab, *number, *wanted),
        Row::Load(source, wanted) => is_loaded(lab, alloc, source, *wanted),
        _ => is_done(lab, row),
    }
}

/// Calls one after another. The place of the first call that answers something else, or how many there are.
pub fn first_wrong<H: History<A>, A: Allocator + Copy>(
    lab: &mut Debugger<H, A>,
    alloc: A,
    rows: &[Row],
) -> usize {
    let mut place = 0usize;
    for row in rows {
        if !is_answered(lab, alloc, row) {
            return place;
        }
        place = place.saturating_add(1);
    }
    place
}

//! Growths refused one after the other: whichever growth of a call is refused, the call says so and all is as before.

use super::calls::{
    Button, Named, add_rule, back, clock, idle, kept, last_hit, load, look, press_button, put, run,
    run_freely, step, with_order, word_at,
};
use crate::history::{Job, Kind, over_kind};
use crate::loader::image;
use crate::{End, PRINT, TRANSFER, end_of, expect_eq, in_turn};
use lgp_assembler::Image;
use lgp_debugger::{Debugger, HitFault, IdleFault, Ran, RunFault, RunRefusal, StepFault};
use lgp_flexo::{Code, read_tape_text};
use lgp_history::{BackFault, History};
use lgp_limited::Limited;
use lgp_loader::LoadFault;
use lgp_machine::{Look, MountFault, PutFault};
use std::alloc::{AllocError, Allocator, Global};

/// Holds the accumulator at 0136, whose number is 100.
const HOLD: u32 = 0x000c_0190;

/// How many codes there are, and a sum of them in which each counts by its place.
type Codes = (usize, u64);

/// What a machine has: what shows, a sum of the words, the printed codes, and the codes of the tape that have passed and that are
/// left.
type State = (Look, u64, [Codes; 3]);

/// The sum with one number more.
fn with_number(sum: u64, number: u64) -> u64 {
    sum.wrapping_mul(67).wrapping_add(number)
}

fn codes(codes: &[Code]) -> Codes {
    let mut sum = 0;
    for code in codes {
        sum = with_number(sum, u64::from(code.number()));
    }
    (codes.len(), sum)
}

fn words<H: History<A>, A: Allocator>(lab: &Debugger<H, A>) -> u64 {
    let mut sum = 0;
    for at in 0..4096 {
        sum = with_number(sum, u64::from(word_at(lab, at)));
    }
    sum
}

fn state<H: History<A>, A: Allocator>(lab: &Debugger<H, A>) -> State {
    let machine = lab.machine();
    let passed = machine.tape_passed().unwrap_or_default();
    let left = machine.tape_left().unwrap_or_default();
    let lists = [codes(machine.printed()), codes(passed), codes(left)];
    (look(lab), words(lab), lists)
}

/// What a debugger has: its state, and how many steps and orders are kept.
fn whole<H: History<A>, A: Allocator>(lab: &Debugger<H, A>) -> (State, (u64, u64)) {
    (state(lab), kept(lab))
}

/// Whether a debugger has this.
fn is_whole<H: History<A>, A: Allocator>(
    lab: &Debugger<H, A>,
    (wanted, count): &(State, (u64, u64)),
) -> bool {
    state(lab) == *wanted && kept(lab) == *count
}

/// A call that takes memory.
#[derive(Clone, Copy)]
enum Call {
    Put(u16, u32),
    Idle(u64),
    Press(Button),
    Step,
    Back,
    /// The latest hit is the order that is the seventh last, by rule 1.
    LastHit,
    /// A tape by its text.
    Mount(&'static [u8]),
}

/// Makes a call; how it ends.
fn called<H: History<A>, A: Allocator>(lab: &mut Debugger<H, A>, call: Call) -> End {
    match call {
        Call::Put(at, bits) => {
            let answer = put(lab, at, bits);
            end_of(answer.is_ok(), answer == Err(PutFault::Memory))
        }
        Call::Idle(times) => {
            let answer = idle(lab, times);
            end_of(answer.is_ok(), answer == Err(IdleFault::Memory))
        }
        Call::Press(button) => {
            let answer = press_button(lab, button);
            end_of(answer == Ok(true), answer.is_err())
        }
        Call::Step => {
            let answer = step(lab);
            end_of(answer.is_ok(), answer == Err(StepFault::Memory))
        }
        Call::Back => {
            let answer = back(lab, 1);
            end_of(answer.is_ok(), answer == Err(BackFault::Memory))
        }
        Call::LastHit => {
            let answer = last_hit(lab);
            end_of(answer == Ok((7, 1)), answer == Err(HitFault::Memory))
        }
        Call::Mount(_) => End::Otherwise,
    }
}

/// How a call ends that changes nothing where it is refused.
fn unless_changed<H: History<A>, A: Allocator>(
    ended: End,
    lab: &Debugger<H, A>,
    before: &(State, (u64, u64)),
) -> End {
    match ended {
        End::Refused if !is_whole(lab, before) => End::Otherwise,
        _ => ended,
    }
}

/// Makes a call with each growth refused in turn. Whether there was one; `None` where a growth is refused and the call does not say
/// so or changes anything, or where none is and it is not done.
fn call_in_turn<H: History<A>, A: Allocator>(
    limited: &Limited<Global>,
    lab: &mut Debugger<H, A>,
    call: Call,
) -> Option<bool> {
    let before = whole(lab);
    let growths = in_turn(limited, || {
        let ended = called(lab, call);
        unless_changed(ended, lab, &before)
    })?;
    Some(growths > 0)
}

/// Mounts a tape, or hands it back.
fn mount_or_back<H: History<A>, A: Allocator>(
    lab: &mut Debugger<H, A>,
    tape: &mut Option<Vec<Code, A>>,
) -> End {
    let Some(codes) = tape.take() else {
        return End::Otherwise;
    };
    match lab.mount(codes) {
        Ok(()) => End::Done,
        Err((fault, back)) => {
            *tape = Some(back);
            end_of(false, fault == MountFault::Memory)
        }
    }
}

/// The codes of a tape that there is.
fn codes_there<A: Allocator>(tape: &Option<Vec<Code, A>>) -> Option<Codes> {
    match tape {
        Some(tape) => Some(codes(tape.as_slice())),
        None => None,
    }
}

/// Mounts a tape likewise. A tape that is handed back has all of its codes, and is tried again.
fn mount_in_turn<H: History<A>, A: Allocator>(
    limited: &Limited<Global>,
    lab: &mut Debugger<H, A>,
    tape: &mut Option<Vec<Code, A>>,
) -> Option<bool> {
    let (before, shown) = (whole(lab), codes_there(tape));
    let growths = in_turn(limited, || {
        let ended = mount_or_back(lab, tape);
        let is_back = codes_there(tape) == shown;
        match unless_changed(ended, lab, &before) {
            End::Refused if !is_back => End::Otherwise,
            ended => ended,
        }
    })?;
    Some(growths > 0)
}

/// Mounts the tape of a text likewise.
fn mount_text_in_turn<H: History<A>, A: Allocator + Copy>(
    limited: &Limited<Global>,
    alloc: A,
    lab: &mut Debugger<H, A>,
    text: &[u8],
) -> Option<bool> {
    limited.refuse(0);
    let mut tape = read_tape_text(alloc, text).ok();
    mount_in_turn(limited, lab, &mut tape)
}

/// A call that is made a given number of times, and whether it takes memory then over records and over checkpoints.
type Row = (Call, u64, [bool; 2]);

/// Steps, 190 orders, steps, and ten orders; and the way back, by one order, to a hit, and to the first order that is kept. Over
/// records each step that is no order takes memory; over checkpoints a tape does, the step of which the machine is copied, and each
/// way back. An order takes memory where the printed codes grow. The 212 steps fill a history of 130; 124 of those are orders.
static ROWS: [Row; 17] = [
    (Call::Put(1, HOLD), 1, [true, true]),
    (Call::Put(2, TRANSFER), 1, [true, false]),
    (Call::Idle(5), 1, [true, false]),
    (Call::Put(100, 6), 1, [true, false]),
    (Call::Mount(b"12'"), 1, [true, true]),
    (Call::Press(Button::Start), 1, [true, false]),
    (Call::Step, 190, [true, true]),
    (Call::Press(Button::Manual), 1, [true, false]),
    (Call::Mount(b"34'5"), 1, [true, true]),
    (Call::Put(100, 8), 1, [true, false]),
    (Call::Idle(7), 1, [true, false]),
    (Call::Press(Button::Normal), 1, [true, false]),
    (Call::Press(Button::Start), 1, [true, false]),
    (Call::Step, 10, [true, true]),
    (Call::Back, 3, [false, true]),
    (Call::LastHit, 1, [false, true]),
    (Call::Back, 114, [false, true]),
];

/// Makes the call of a row as often as it says. Whether it takes memory.
fn row_in_turn<H: History<A>, A: Allocator + Copy>(
    limited: &Limited<Global>,
    alloc: A,
    lab: &mut Debugger<H, A>,
    row: &Row,
) -> Option<bool> {
    let mut grown = false;
    for _ in 0..row.1 {
        grown |= match row.0 {
            Call::Mount(text) => mount_text_in_turn(limited, alloc, lab, text)?,
            call => call_in_turn(limited, lab, call)?,
        };
    }
    Some(grown)
}

/// The place of the first row that is not so over a kind of history, or how many there are, and what is kept then. Of the last seven
/// orders after the first three back the first one changes the word that was put in the pause, by rule 1.
fn first_wrong<H: History<A>, A: Allocator + Copy>(
    (limited, alloc, kind): (&Limited<Global>, A, Kind),
    lab: &mut Debugger<H, A>,
) -> (usize, (u64, u64)) {
    let _rules = [
        add_rule(lab, Named::At(5)).is_ok(),
        add_rule(lab, Named::Changed(100)).is_ok(),
    ];
    let mut place = 0usize;
    for row in &ROWS {
        let wanted = match kind {
            Kind::Records => row.2[0],
            Kind::Checkpoints => row.2[1],
        };
        if row_in_turn(limited, alloc, lab, row) != Some(wanted) {
            return (place, kept(lab));
        }
        place = place.saturating_add(1);
    }
    (place, kept(lab))
}

/// That over a new machine.
#[derive(Drop)]
struct ThereAndBack<'a> {
    limited: &'a Limited<Global>,
    kind: Kind,
}

impl<A: Allocator + Copy> Job<A> for ThereAndBack<'_> {
    type Answer = (usize, (u64, u64));

    fn over<H: History<A>>(&self, alloc: A, history: Result<H, AllocError>) -> (usize, (u64, u64)) {
        match with_order(alloc, history, PRINT) {
            Some(mut lab) => first_wrong((self.limited, alloc, self.kind), &mut lab),
            None => (0, (0, 0)),
        }
    }
}

/// That over a history of at most 130 steps, and how many blocks are out at last.
fn gone_over(global: Global, kind: Kind) -> ((usize, (u64, u64)), u64) {
    let limited = &Limited::new(global);
    let seen = over_kind(limited, (kind, 130), &ThereAndBack { limited, kind });
    (seen, limited.blocks_out())
}

#[test]
fn debuggers_with_each_growth_refused(rt: HostRuntime) {
    let seen = [
        gone_over(rt.alloc(), Kind::Records),
        gone_over(rt.alloc(), Kind::Checkpoints),
    ];
    expect_eq(&rt, seen, [((17, (0, 0)), 0); 2]);
}

/// Starts a transfer to itself. How many of 190 orders take memory, with each growth refused in turn.
fn grown_steps<H: History<A>, A: Allocator>(
    limited: &Limited<Global>,
    lab: &mut Debugger<H, A>,
) -> Option<u64> {
    let mut grown = 0u64;
    if press_button(lab, Button::Start) != Ok(true) {
        return None;
    }
    for _ in 0..190 {
        if call_in_turn(limited, lab, Call::Step)? {
            grown = grown.saturating_add(1);
        }
    }
    Some(grown)
}

/// That over a new machine.
#[derive(Drop)]
struct GrownSteps<'a> {
    limited: &'a Limited<Global>,
}

impl<A: Allocator + Copy> Job<A> for GrownSteps<'_> {
    type Answer = Option<u64>;

    fn over<H: History<A>>(&self, alloc: A, history: Result<H, AllocError>) -> Option<u64> {
        match with_order(alloc, history, TRANSFER) {
            Some(mut lab) => grown_steps(self.limited, &mut lab),
            None => None,
        }
    }
}

fn grown_over(global: Global, kind: Kind) -> Option<u64> {
    let limited = &Limited::new(global);
    over_kind(limited, (kind, 130), &GrownSteps { limited })
}

/// Checkpoints copy the machine before the first step, which is the press, and before each 64th after it, orders 64 and 128. Records
/// make their places beforehand.
#[test]
fn checkpoints_copy_the_machine_before_each_64th_step(rt: HostRuntime) {
    let grown = [
        grown_over(rt.alloc(), Kind::Records),
        grown_over(rt.alloc(), Kind::Checkpoints),
    ];
    expect_eq(&rt, grown, [Some(0), Some(2)]);
}

/// Starts a loop of three orders. True where it is started; three steps are kept then.
fn start<H: History<A>, A: Allocator>(lab: &mut Debugger<H, A>) -> bool {
    put(lab, 1, HOLD) == Ok(())
        && put(lab, 2, TRANSFER) == Ok(())
        && press_button(lab, Button::Start) == Ok(true)
}

/// By the rules, of which there are none, or freely, past one that would stop it.
#[derive(Clone, Copy)]
enum Way {
    ByRules,
    Freely,
}

/// A run of 80 orders.
fn run_so<H: History<A>, A: Allocator>(
    lab: &mut Debugger<H, A>,
    way: Way,
) -> Result<Ran, RunFault> {
    match way {
        Way::ByRules => run(lab, 80),
        Way::Freely => {
            let _ = add_rule(lab, Named::At(1));
            run_freely(lab, 80)
        }
    }
}

/// How that ends: refused after orders that are kept, or done.
fn run_end<H: History<A>, A: Allocator>(lab: &mut Debugger<H, A>, way: Way) -> End {
    if !start(lab) {
        return End::Refused;
    }
    let answer = run_so(lab, way);
    let (steps, orders) = kept(lab);
    let are_kept = steps == orders.saturating_add(3);
    match answer {
        Ok(ran) => end_of(are_kept && (ran.orders, orders) == (80, 80), false),
        Err(fault) => {
            let is_so = fault.fault == RunRefusal::Memory && fault.orders == orders;
            end_of(false, are_kept && is_so)
        }
    }
}

/// That over a new machine.
#[derive(Drop)]
struct RunSo {
    way: Way,
}

impl<A: Allocator + Copy> Job<A> for RunSo {
    type Answer = End;

    fn over<H: History<A>>(&self, alloc: A, history: Result<H, AllocError>) -> End {
        match with_order(alloc, history, PRINT) {
            Some(mut lab) => run_end(&mut lab, self.way),
            None => End::Refused,
        }
    }
}

/// How many growths a debugger and its run have, each of which is refused in turn, and how many blocks are out at last.
fn growths_of_run(global: Global, kind: Kind, way: Way) -> (Option<u64>, u64) {
    let limited = Limited::new(global);
    let growths = in_turn(
        &limited,
        || over_kind(&limited, (kind, 130), &RunSo { way }),
    );
    (growths, limited.blocks_out())
}

#[test]
fn a_run_says_after_how_many_orders_it_is_refused(rt: HostRuntime) {
    for kind in [Kind::Records, Kind::Checkpoints] {
        for way in [Way::ByRules, Way::Freely] {
            let (growths, blocks) = growths_of_run(rt.alloc(), kind, way);
            expect_eq(&rt, (growths >= Some(8), blocks), (true, 0));
        }
    }
}

/// Whether a load takes memory, and the clock and what is kept then.
type Loaded = Option<(bool, u64, (u64, u64))>;

/// Loads with each growth refused in turn. Whether there was one; `None` where a growth is refused and anything is done, or where none is
/// and it is not loaded by 23 orders.
fn load_in_turn<H: History<A>, A: Allocator + Copy>(
    limited: &Limited<Global>,
    alloc: A,
    lab: &mut Debugger<H, A>,
    image: &Image,
) -> Option<bool> {
    let before = whole(lab);
    let growths = in_turn(limited, || {
        let answer = load(lab, alloc, image);
        let ended = end_of(answer == Ok(23), answer == Err(LoadFault::Memory));
        unless_changed(ended, lab, &before)
    })?;
    Some(growths > 0)
}

/// Loads so with a step kept.
fn load_after_a_step<H: History<A>, A: Allocator + Copy>(
    limited: &Limited<Global>,
    alloc: A,
    lab: &mut Debugger<H, A>,
    image: &Image,
) -> Loaded {
    if put(lab, 100, 4).is_err() {
        return None;
    }
    match load_in_turn(limited, alloc, lab, image) {
        Some(grown) => Some((grown, clock(lab), kept(lab))),
        None => None,
    }
}

/// A load that is made so.
#[derive(Drop)]
struct LoadSo<'a> {
    limited: &'a Limited<Global>,
    image: &'a Image,
}

impl<A: Allocator + Copy> Job<A> for LoadSo<'_> {
    type Answer = Loaded;

    fn over<H: History<A>>(&self, alloc: A, history: Result<H, AllocError>) -> Loaded {
        match with_order(alloc, history, PRINT) {
            Some(mut lab) => load_after_a_step(self.limited, alloc, &mut lab, self.image),
            None => None,
        }
    }
}

fn load_of_kind<A: Allocator + Copy>(
    limited: &Limited<Global>,
    alloc: A,
    kind: Kind,
    image: &Image,
) -> Loaded {
    limited.refuse(0);
    over_kind(alloc, (kind, 4), &LoadSo { limited, image })
}

/// A load over records and one over checkpoints.
fn load_of_each<A: Allocator + Copy>(
    limited: &Limited<Global>,
    alloc: A,
    image: &Image,
) -> [Loaded; 2] {
    [
        load_of_kind(limited, alloc, Kind::Records, image),
        load_of_kind(limited, alloc, Kind::Checkpoints, image),
    ]
}

/// Such loads of one word, and how many blocks are out at last.
fn loads(global: Global) -> ([Loaded; 2], u64) {
    let Some(image) = image(global, b" org 0100\n word 00000004\n end") else {
        return ([None; 2], 0);
    };
    let limited = Limited::new(global);
    (
        load_of_each(&limited, &limited, &image),
        limited.blocks_out(),
    )
}

#[test]
fn a_load_with_each_growth_refused_keeps_what_there_is(rt: HostRuntime) {
    let wanted = ([Some((true, 15342, (0, 0))); 2], 0);
    expect_eq(&rt, loads(rt.alloc()), wanted);
}

/// What a step answers, and the clock and what is kept then.
type Stepped = (Result<u64, StepFault>, u64, (u64, u64));

fn stepped<H: History<A>, A: Allocator>(lab: &mut Debugger<H, A>) -> Stepped {
    let answer = step(lab);
    (answer, clock(lab), kept(lab))
}

/// A refused step after the press of Start, and one that is done.
const REFUSED: Stepped = (Err(StepFault::Memory), 0, (1, 0));

const PRINTED: Stepped = (Ok(451), 451, (2, 1));

/// An order that prints, after the press of Start, with each growth refused in turn. Whether there was one.
fn print_in_turn<H: History<A>, A: Allocator>(
    limited: &Limited<Global>,
    lab: &mut Debugger<H, A>,
) -> bool {
    let is_started = press_button(lab, Button::Start) == Ok(true);
    let growths = in_turn(limited, || {
        let seen = stepped(lab);
        end_of(seen == PRINTED, seen == REFUSED)
    });
    is_started && growths >= Some(1)
}

/// That over a new machine.
#[derive(Drop)]
struct PrintSo<'a> {
    limited: &'a Limited<Global>,
}

impl<A: Allocator + Copy> Job<A> for PrintSo<'_> {
    type Answer = bool;

    fn over<H: History<A>>(&self, alloc: A, history: Result<H, AllocError>) -> bool {
        match with_order(alloc, history, PRINT) {
            Some(mut lab) => print_in_turn(self.limited, &mut lab),
            None => false,
        }
    }
}

/// That over a kind of history, and how many blocks are out at last.
fn printed_over(global: Global, kind: Kind) -> (bool, u64) {
    let limited = &Limited::new(global);
    let seen = over_kind(limited, (kind, 4), &PrintSo { limited });
    (seen, limited.blocks_out())
}

#[test]
fn a_print_with_each_growth_refused_keeps_the_step_before_it(rt: HostRuntime) {
    let seen = [
        printed_over(rt.alloc(), Kind::Records),
        printed_over(rt.alloc(), Kind::Checkpoints),
    ];
    expect_eq(&rt, seen, [(true, 0); 2]);
}

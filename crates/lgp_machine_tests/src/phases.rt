//! Worked orders, each by its word times, in one call, and as a short order where it is one.

mod bench;

use crate::{End as Ended, at, expect_eq, in_turn};
use bench::{Bench, CASE, Case, Cell, End, NO_TAPE, UP, Way, perform_all};
use lgp_flexo::Code;
use lgp_limited::Limited;
use lgp_phases::{Outcome, Processor, Progress, act_time, seek_time, wait};
use lgp_reader::Reader;
use lgp_table::{Cause, Mode, Status, Switches};
use lgp_word::{Address, Op};
use std::alloc::{Allocator, Global};

const GOING: Status = Status::Going;

const STOPPED: Status = Status::Halted(Cause::Stop);

const STEPPED: Status = Status::Halted(Cause::Step);

const OPERATOR: Status = Status::Halted(Cause::Operator);

/// The clock at which a sector is read.
fn read_at(sector: u16, clock: u64, after: u64) -> Option<u64> {
    if sector >= 64 || clock > 1000 || after > 1000 {
        return None;
    }
    Some(clock + after + wait(sector, clock, after))
}

/// The word times of the last phase of five orders, without a tape.
fn act_times(global: Global) -> [u64; 5] {
    let reader = Reader::new(global);
    [
        act_time(Op::B, at(b"0050"), &reader),
        act_time(Op::M, at(b"0050"), &reader),
        act_time(Op::P, at(b"0063"), &reader),
        act_time(Op::P, at(b"0100"), &reader),
        act_time(Op::I, at(b"0000"), &reader),
    ]
}

#[test]
fn phases_take_their_word_times(rt: HostRuntime) {
    let read = [read_at(1, 67, 0), read_at(1, 129, 0), read_at(1, 60, 69)];
    let sought = [
        seek_time(Op::B, at(b"0050"), 65, 0),
        seek_time(Op::B, at(b"0000"), 60, 5),
        seek_time(Op::Z, at(b"0000"), 65, 0),
    ];
    expect_eq(
        &rt,
        (read, sought, act_times(rt.alloc())),
        (
            [Some(73), Some(137), Some(137)],
            [1, 63, 1],
            [1, 65, 1, 385, 1],
        ),
    );
}

/// A load, a sum, a store and a stop.
const SUM: Case = Case {
    cells: &[
        (*b"0000", *b"000100j8"),
        (*b"0001", *b"000q00jj"),
        (*b"0002", *b"000j00k0"),
        (*b"0050", *b"00000006"),
        (*b"0051", *b"0000000f"),
    ],
    ends: &[
        (67, GOING, *b"0001", *b"000100j8", 6, NO_TAPE),
        (76, GOING, *b"0002", *b"000q00jj", 16, NO_TAPE),
        (85, GOING, *b"0003", *b"000j00k0", 16, NO_TAPE),
        (94, STOPPED, *b"0004", *b"00000000", 16, NO_TAPE),
    ],
    stored: (*b"0052", *b"00000010"),
    ..CASE
};

const OVERFLOWED: Status = Status::Halted(Cause::Overflow);

/// A sum above the largest fraction.
const OVERFLOW: Case = Case {
    cells: &[
        (*b"0000", *b"000100j8"),
        (*b"0001", *b"000q00jj"),
        (*b"0050", *b"7wwwwwwq"),
        (*b"0051", *b"00000002"),
    ],
    ends: &[
        (67, GOING, *b"0001", *b"000100j8", 0x7fff_fffe, NO_TAPE),
        (76, OVERFLOWED, *b"0002", *b"000q00jj", 1 << 31, NO_TAPE),
    ],
    ..CASE
};

/// An address that is stored into a later order.
const ADDRESS: Case = Case {
    cells: &[
        (*b"0000", *b"000100j8"),
        (*b"0001", *b"00020008"),
        (*b"0002", *b"00010000"),
        (*b"0050", *b"00000100"),
        (*b"0100", *b"00000022"),
    ],
    ends: &[
        (67, GOING, *b"0001", *b"000100j8", 0x100, NO_TAPE),
        (83, GOING, *b"0002", *b"00020008", 0x100, NO_TAPE),
        (193, GOING, *b"0003", *b"00010100", 0x22, NO_TAPE),
    ],
    stored: (*b"0002", *b"00010100"),
    ..CASE
};

/// An order that replaces itself, and is read again.
const REPLACED: Case = Case {
    cells: &[
        (*b"0000", *b"000100j8"),
        (*b"0001", *b"000k0004"),
        (*b"0002", *b"000f0004"),
        (*b"0050", *b"000f0000"),
    ],
    ends: &[
        (67, GOING, *b"0001", *b"000100j8", 0xa_0000, NO_TAPE),
        (138, GOING, *b"0002", *b"000k0004", 0, NO_TAPE),
        (149, GOING, *b"0001", *b"000f0004", 0, NO_TAPE),
        (204, GOING, *b"0000", *b"000f0000", 0, NO_TAPE),
    ],
    stored: (*b"0001", *b"000f0000"),
    ..CASE
};

/// A return address.
const RETURN: Case = Case {
    cells: &[
        (*b"0100", *b"00030128"),
        (*b"0101", *b"000f0128"),
        (*b"0110", *b"000f0000"),
    ],
    counter: *b"0100",
    ends: &[
        (91, GOING, *b"0101", *b"00030128", 0, NO_TAPE),
        (140, GOING, *b"0110", *b"000f0128", 0, NO_TAPE),
        (157, GOING, *b"0102", *b"000f0108", 0, NO_TAPE),
    ],
    stored: (*b"0110", *b"000f0108"),
    ..CASE
};

/// A return address after the last word of the drum.
const LAST_RETURN: Case = Case {
    cells: &[(*b"6363", *b"00030000"), (*b"0000", *b"000f0000")],
    counter: *b"6363",
    ends: &[(65, GOING, *b"0000", *b"00030000", 0, NO_TAPE)],
    stored: (*b"0000", *b"000f0004"),
    ..CASE
};

/// The code 57, printed.
const PRINT: Case = Case {
    cells: &[(*b"0000", *b"00083900")],
    ends: &[(451, GOING, *b"0001", *b"00083900", 0, (Some(57), false, 0))],
    ..CASE
};

/// A load in the instruction register.
const EXECUTED: Case = Case {
    cells: &[(*b"0050", *b"00000006")],
    register: *b"000100j8",
    status: Status::Executing,
    ends: &[(3, STEPPED, *b"0000", *b"000100j8", 6, NO_TAPE)],
    ..CASE
};

static PROGRAMS: [Case; 8] = [
    SUM,
    OVERFLOW,
    ADDRESS,
    REPLACED,
    RETURN,
    LAST_RETURN,
    PRINT,
    EXECUTED,
];

/// BREAK POINT 32 down, TRANSFER CONTROL down, and 6 BIT INPUT down.
const BREAK_32: Switches = Switches { b32: true, ..UP };

const TRANSFER: Switches = Switches {
    transfer: true,
    ..UP
};

const SIX_BIT: Switches = Switches {
    six_bit: true,
    ..UP
};

/// An order at 0000, the word at 0050, the accumulator and the switches; and the status, the clock, the counter and the accumulator
/// after the order.
type Single = (
    &'static [u8; 8],
    &'static [u8; 8],
    u32,
    Switches,
    (Status, u64, &'static [u8; 4], u32),
);

/// Two loads that wait long; arithmetic, of which the first four take a revolution more; a part of a word and a difference; tests by
/// the accumulator's sign or by TRANSFER CONTROL; and a stop with its break point.
static SINGLES: [Single; 14] = [
    (b"000100j8", ZERO, 0, UP, (GOING, 67, b"0001", 0)),
    (b"00010000", ZERO, 0, UP, (GOING, 129, b"0001", 0x10000)),
    (b"000500j8", SIX, 2, UP, (GOING, 131, b"0001", 0x2aaa_aaaa)),
    (b"000600j8", TEN, 6, UP, (GOING, 131, b"0001", 0x3c)),
    (b"000700j8", TEN, 6, UP, (GOING, 131, b"0001", 0)),
    (b"000700j8", TWO, LAST, UP, (GOING, 131, b"0001", LAST)),
    (b"000900j8", MASK, 0x1d, UP, (GOING, 67, b"0001", 0xc)),
    (b"000w00j8", SIX, 10, UP, (GOING, 67, b"0001", 4)),
    (b"800g0100", ZERO, 0, UP, (GOING, 67, b"0001", 0)),
    (b"800g0100", ZERO, 0, TRANSFER, (GOING, 67, b"0100", 0)),
    (b"000g0100", ZERO, 0, TRANSFER, (GOING, 67, b"0001", 0)),
    (b"000g0100", ZERO, LAST, UP, (GOING, 67, b"0100", LAST)),
    (b"00002000", ZERO, 0, BREAK_32, (GOING, 67, b"0001", 0)),
    (b"00002000", ZERO, 0, UP, (STOPPED, 67, b"0001", 0)),
];

const ZERO: &[u8; 8] = b"00000000";

const TWO: &[u8; 8] = b"00000002";

const SIX: &[u8; 8] = b"00000006";

const TEN: &[u8; 8] = b"0000000f";

const MASK: &[u8; 8] = b"0000000q";

const LAST: u32 = 0xffff_fffe;

/// Whether an order goes so in each way.
fn is_single(
    alloc: Global,
    (order, word, accumulator, switches, (status, clock, counter, after)): Single,
) -> bool {
    let case = Case {
        cells: &[(*b"0000", *order), (*b"0050", *word)],
        accumulator,
        switches,
        ends: &[(clock, status, *counter, *order, after, NO_TAPE)],
        ..CASE
    };
    perform_all(alloc, &case).is_ok()
}

/// A tape, the switches, and the clock, the status, the accumulator and the codes left after the input at 0001.
type Input = (&'static [u8], Switches, u64, Status, u32);

/// Tapes that are read up to their stops or to their ends, the last one by six bits.
static INPUTS: [Input; 3] = [
    (b"12[16]3'", UP, 1996, GOING, 0x123),
    (b"12[16]3", UP, 1612, Status::Waiting, 0x123),
    (b"a'", SIX_BIT, 844, GOING, 0x39),
];

/// An order that switches the reader on, and an input.
const READING: [Cell; 2] = [(*b"0000", *b"00080000"), (*b"0001", *b"00040000")];

/// Whether a tape of a given number of codes is read so in each way.
fn is_input(alloc: Global, (tape, switches, clock, status, read): Input, codes: usize) -> bool {
    let case = Case {
        cells: &READING,
        tape,
        switches,
        ends: &[
            (67, GOING, *b"0001", *b"00080000", 0, (None, true, codes)),
            (clock, status, *b"0002", *b"00040000", read, NO_TAPE),
        ],
        ..CASE
    };
    perform_all(alloc, &case).is_ok()
}

/// A tape, the status and the mode; and the clock, the status, the accumulator and the codes left after one activity.
type Console = (&'static [u8], Status, Mode, (u64, Status, u32, usize));

const READS: Status = Status::Reading;

/// Tapes that are read from the console in each mode, the last two without a stop; and a word time where the machine has halted, and
/// one where it waits.
static CONSOLE: [Console; 7] = [
    (b"12'3", READS, Mode::Normal, (1153, GOING, 0x12, 1)),
    (b"12'3", READS, Mode::OneOperation, (1153, STEPPED, 0x12, 1)),
    (b"12'3", READS, Mode::Manual, (1153, OPERATOR, 0x12, 1)),
    (b"12", READS, Mode::OneOperation, (769, WAITS, 0x12, 0)),
    (b"12", READS, Mode::Manual, (769, OPERATOR, 0x12, 0)),
    (b"", OPERATOR, Mode::Normal, (1, OPERATOR, 0, 0)),
    (b"", WAITS, Mode::Normal, (1, WAITS, 0, 0)),
];

const WAITS: Status = Status::Waiting;

/// Whether an activity from the console goes so in each way.
fn is_console(
    alloc: Global,
    (tape, status, mode, (clock, after, accumulator, left)): Console,
) -> bool {
    let taped = (None, false, left);
    let case = Case {
        tape,
        status,
        mode,
        ends: &[(clock, after, *b"0000", *b"00000000", accumulator, taped)],
        ..CASE
    };
    perform_all(alloc, &case).is_ok()
}

#[test]
fn worked_orders(rt: HostRuntime) {
    let alloc = rt.alloc();
    for case in &PROGRAMS {
        expect_eq(&rt, perform_all(alloc, case), Ok(()));
    }
    for row in &SINGLES {
        expect_eq(&rt, (row.0, is_single(alloc, *row)), (row.0, true));
    }
    for row in &CONSOLE {
        expect_eq(&rt, (row.3, is_console(alloc, *row)), (row.3, true));
    }
    let inputs = [
        is_input(alloc, INPUTS[0], 5),
        is_input(alloc, INPUTS[1], 4),
        is_input(alloc, INPUTS[2], 2),
    ];
    expect_eq(&rt, inputs, [true; 3]);
}

/// Whether all but the last word time of a print pass as they should, whether the processor could be copied, whether the last one,
/// of the copy, is predicted to print, and that one.
fn last_of_a_print(global: Global) -> Option<([bool; 3], Progress)> {
    let mut bench = Bench::new(global, &PRINT)?;
    let passed = bench.turns_before(451);
    let copied = bench.copy();
    let prints = bench.prints_next();
    Some(([passed, copied, prints], bench.turn()))
}

#[test]
fn the_last_word_time_prints(rt: HostRuntime) {
    let outcome = Outcome {
        cost: 451,
        status: GOING,
        printed: Code::new(57),
    };
    expect_eq(
        &rt,
        last_of_a_print(rt.alloc()),
        Some(([true; 3], Progress::Done(outcome))),
    );
}

/// What is decoded at 0000 and at 0001.
type Decoded = [Option<(bool, Op, Address)>; 2];

fn decoded<A: Allocator>(bench: &Bench<A>) -> Decoded {
    [bench.decoded(b"0000"), bench.decoded(b"0001")]
}

/// Whether two activities are as foretold, and what is decoded after them.
fn decoded_after_two<A: Allocator>(bench: &mut Bench<A>, way: Way) -> (bool, Decoded) {
    let are_performed = bench.activity(way).is_some() && bench.activity(way).is_some();
    (are_performed, decoded(bench))
}

/// What is decoded at first, after two orders, by a copy after four, and when all is forgotten; and whether all went well.
fn decoded_on_the_way(global: Global, way: Way) -> Option<([bool; 3], [Decoded; 4])> {
    let mut bench = Bench::new(global, &REPLACED)?;
    let first = decoded(&bench);
    let (performed_two, second) = decoded_after_two(&mut bench, way);
    let (performed_four, _) = decoded_after_two(&mut bench, way);
    let copied = bench.copy();
    let fourth = decoded(&bench);
    bench.clear();
    Some((
        [performed_two, performed_four, copied],
        [first, second, fourth, decoded(&bench)],
    ))
}

/// The parts of an order without a minus.
fn parts(op: Op, text: &[u8; 4]) -> Option<(bool, Op, Address)> {
    Some((false, op, at(text)))
}

/// The second of four orders stores another order over itself, and so is decoded no more; the fourth is that other order.
#[test]
fn orders_are_kept_decoded(rt: HostRuntime) {
    let wanted = [
        [None, None],
        [parts(Op::B, b"0050"), None],
        [parts(Op::B, b"0050"), parts(Op::U, b"0000")],
        [None, None],
    ];
    expect_eq(
        &rt,
        [
            decoded_on_the_way(rt.alloc(), Way::WordTimes),
            decoded_on_the_way(rt.alloc(), Way::OneCall),
            decoded_on_the_way(rt.alloc(), Way::Short),
        ],
        [Some(([true; 3], wanted)); 3],
    );
}

/// How the making of a processor ends, which has begun nothing.
fn made<A: Allocator + Copy>(alloc: A) -> Ended {
    match Processor::new(alloc) {
        Ok(processor) if processor.is_idle() => Ended::Done,
        Ok(_) => Ended::Otherwise,
        Err(_) => Ended::Refused,
    }
}

/// How a copy of an idle one ends.
fn copied<A: Allocator + Clone>(processor: &Processor<A>) -> Ended {
    match processor.copy() {
        Ok(copy) if copy.is_idle() => Ended::Done,
        Ok(_) => Ended::Otherwise,
        Err(_) => Ended::Refused,
    }
}

/// How many growths a processor and its copy have, each of which is refused in turn, and how many blocks are out at last.
fn growths_of_processors(global: Global) -> Option<([Option<u64>; 2], u64)> {
    let limited = Limited::new(global);
    let made = in_turn(&limited, || made(&limited));
    let processor = Processor::new(&limited).ok()?;
    let copied = in_turn(&limited, || copied(&processor));
    Some(([made, copied], limited.blocks_out()))
}

#[test]
fn each_growth_of_a_processor_is_refused(rt: HostRuntime) {
    expect_eq(
        &rt,
        growths_of_processors(rt.alloc()),
        Some(([Some(1); 2], 1)),
    );
}

//! Programs loaded, and what then shows.

use super::*;

/// A load on a new machine, and what it leaves: how many orders it takes, the counter after the loader's end cell, the clock, and
/// words of the drum.
struct Load<'a> {
    source: &'a [u8],
    way: Way<'a>,
    orders: u64,
    counter: &'a [u8],
    clock: u64,
    words: &'a [(&'a [u8], &'a [u8])],
}

/// Whether a load ends so.
fn has_ended(alloc: Global, load: &Load) -> bool {
    let Some((answer, look, has_words)) = loaded(alloc, (load.source, load.way, NEW), load.words)
    else {
        return false;
    };
    let wanted = stopped(load.counter, b"80000000", Switches::default(), load.clock);
    answer == Ok(load.orders) && look.is_some() && look == wanted && has_words
}

static LOADS: &[Load<'static>] = &[
    Load {
        source: ONE_WORD,
        way: Way::Longest,
        orders: 23,
        counter: b"6320",
        clock: 15342,
        words: &[
            (b"0100", b"00000004"),
            (b"6309", b"000k0104"),
            (b"6319", b"80000000"),
            (b"6321", b"00000000"),
        ],
    },
    Load {
        source: NO_WORDS,
        way: Way::Longest,
        orders: 5,
        counter: b"6320",
        clock: 3886,
        words: &[(b"6309", b"00000000"), (b"6319", b"80000000")],
    },
    Load {
        source: ONE_WORD,
        way: Way::Single,
        orders: 13,
        counter: b"6310",
        clock: 11348,
        words: &[
            (b"0100", b"00000004"),
            (b"6306", b"000k0100"),
            (b"6309", b"80000000"),
        ],
    },
    Load {
        source: NO_WORDS,
        way: Way::Single,
        orders: 5,
        counter: b"6310",
        clock: 3796,
        words: &[(b"6306", b"00000000")],
    },
];

#[test]
fn programs_are_loaded(rt: HostRuntime) {
    for load in LOADS {
        let seen = (load.source, has_ended(rt.alloc(), load));
        expect_eq(&rt, seen, (load.source, true));
    }
}

static WORDS_OF_TWO_BLOCKS: &[(&[u8], &[u8])] = &[
    (b"0100", b"00000004"),
    (b"0101", b"00000008"),
    (b"6309", b"000k0108"),
    (b"6319", b"80000000"),
    (b"6321", b"00000000"),
];

/// What two words in blocks answer on a new machine, and whether the drum then has the wanted words.
fn two_words(alloc: Global, way: Way) -> Option<(Result<u64, LoadFault>, bool)> {
    let (answer, _, has_words) = loaded(alloc, (TWO_WORDS, way, NEW), WORDS_OF_TWO_BLOCKS)?;
    Some((answer, has_words))
}

#[test]
fn two_words_are_loaded_in_two_blocks(rt: HostRuntime) {
    let found = [
        two_words(rt.alloc(), Way::Longest),
        two_words(rt.alloc(), Way::Cut(&[1, 1])),
    ];
    expect_eq(&rt, found, [Some((Ok(33), true)), Some((Ok(41), true))]);
}

/// What the load of a source with a start answers, the status and the counter then, and whether given words lie on the drum.
fn started(
    alloc: Global,
    source: &[u8],
    words: &[(&[u8], &[u8])],
) -> Option<(Result<u64, LoadFault>, Status, u16, bool)> {
    let (answer, look, has_words) = loaded(alloc, (source, Way::Longest, NEW), words)?;
    let look = look?;
    Some((answer, look.status, look.counter.number(), has_words))
}

#[test]
fn programs_with_a_start_are_loaded_and_started(rt: HostRuntime) {
    let found = [
        started(rt.alloc(), FIVE_LINES, &[(b"0003", b"0jjjjjjj")]),
        started(rt.alloc(), b" end 0100", &[(b"6319", b"800f0100")]),
    ];
    let wanted = [
        Some((Ok(53), Status::Going, 0, true)),
        Some((Ok(5), Status::Going, 64, true)),
    ];
    expect_eq(&rt, found, wanted);
}

/// Sets the loader going by hand, with a tape mounted; false where a step is refused.
fn start_loader(machine: &mut Machine, base: Address, tape: Vec<Code>) -> bool {
    if key_in(machine, base, &LOADER).is_err() || machine.mount(tape).is_err() {
        return false;
    }
    press(machine, &actions_to_jump(base));
    if machine.next_order().is_err() {
        return false;
    }
    press(machine, &[Action::Mode(Mode::Normal), Action::Start]);
    true
}

/// Lets a given number of orders end, word time by word time; false where a word time is refused.
fn let_orders_end(machine: &mut Machine, wanted: u32) -> bool {
    let mut orders = 0;
    for _ in 0..20000 {
        if orders < wanted {
            match machine.turn() {
                Ok(true) => orders += 1,
                Ok(false) => {}
                Err(_) => return false,
            }
        }
    }
    true
}

/// Lets a loading of 23 orders end, within whose first one TRANSFER CONTROL is set. What shows then; `None` where anything is refused.
fn disturbed(machine: &mut Machine) -> Option<Look> {
    machine.turn().ok()?;
    press(machine, &[Action::Transfer(true)]);
    if let_orders_end(machine, 23) {
        look(machine)
    } else {
        None
    }
}

/// TRANSFER CONTROL set, and no other switch.
const TRANSFER: Switches = Switches {
    b32: false,
    b16: false,
    b8: false,
    b4: false,
    transfer: true,
    six_bit: false,
};

/// The same from the beginning, with the tape of a program of one word.
fn disturbed_load(alloc: Global, machine: &mut Machine, image: &Image) -> Option<Look> {
    let base = at(b"6300");
    let is_started = match tape_by(alloc, image, Way::Longest) {
        Ok(tape) => start_loader(machine, base, tape),
        Err(_) => false,
    };
    if is_started { disturbed(machine) } else { None }
}

/// The same on a new machine.
fn disturbed_on_one(alloc: Global) -> Option<Look> {
    let image = image(alloc, ONE_WORD)?;
    let mut machine = machine_at(alloc, NEW)?;
    disturbed_load(alloc, &mut machine, &image)
}

/// What is left is what the load leaves with no switch touched.
#[test]
fn transfer_control_does_not_disturb_loading(rt: HostRuntime) {
    let found = disturbed_on_one(rt.alloc());
    let wanted = stopped(b"6320", b"80000000", TRANSFER, 15342);
    expect_eq(&rt, (found.is_some(), found), (true, wanted));
}

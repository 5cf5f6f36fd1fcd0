//! Growths refused one after the other.

use super::{
    PRINT, look, next_order, printed, shown, started, turn, turns, within_a_tape, word_at,
};
use crate::{End, address, end_of, expect_eq, in_turn};
use lgp_drum::Drum;
use lgp_flexo::Code;
use lgp_limited::Limited;
use lgp_machine::{Look, Machine, OrderFault, TurnFault};
use lgp_table::{Cause, Status};
use lgp_word::Word;
use std::alloc::{Allocator, Global};

/// How many codes there are, and the numbers of the first three.
type Codes = (usize, [u8; 3]);

/// What shows, how many words are not 0 and those at 0000, 0100 and 6363, the printed codes, and the codes of the tape that have passed
/// and that are left.
type Whole = (Look, (u16, [u32; 3]), Codes, Codes, Codes);

const NO_CODES: Codes = (0, [0; 3]);

/// The number of the code at a place, or 0 past the last one.
fn number_at(codes: &[Code], place: usize) -> u8 {
    match codes.get(place) {
        Some(code) => code.number(),
        None => 0,
    }
}

fn codes(codes: &[Code]) -> Codes {
    let first = [
        number_at(codes, 0),
        number_at(codes, 1),
        number_at(codes, 2),
    ];
    (codes.len(), first)
}

fn words<A: Allocator>(machine: &Machine<A>) -> (u16, [u32; 3]) {
    let mut count = 0u16;
    for at in 0..4096 {
        count = count.saturating_add(u16::from(word_at(machine, at) != 0));
    }
    let found = [
        word_at(machine, 0),
        word_at(machine, 64),
        word_at(machine, 4095),
    ];
    (count, found)
}

/// All that a machine has; `None` within an activity.
fn whole<A: Allocator>(machine: &Machine<A>) -> Option<Whole> {
    Some((
        look(machine)?,
        words(machine),
        codes(machine.printed()),
        codes(machine.tape_passed()?),
        codes(machine.tape_left()?),
    ))
}

/// Whether a machine has all that is wanted.
fn is_whole<A: Allocator>(machine: &Machine<A>, wanted: &Option<Whole>) -> bool {
    wanted.is_some() && whole(machine) == *wanted
}

/// How a call ends that makes a machine, which has to have this.
fn end_with<A: Allocator>(machine: &Machine<A>, wanted: &Option<Whole>) -> End {
    if is_whole(machine, wanted) {
        End::Done
    } else {
        End::Otherwise
    }
}

/// A machine in its opening state with these words, as many as are not 0.
fn opening(words: (u16, [u32; 3])) -> Option<Whole> {
    let look = shown(0, 0, 0, Status::Halted(Cause::Operator), 0)?;
    Some((look, words, NO_CODES, NO_CODES, NO_CODES))
}

/// The making of a blank machine.
fn made<A: Allocator + Copy>(alloc: A) -> End {
    match Machine::new(alloc) {
        Ok(machine) => end_with(&machine, &opening((0, [0; 3]))),
        Err(_) => End::Refused,
    }
}

/// A drum with a word at 0100 and one at 6363.
fn drum_of_two<A: Allocator + Copy>(alloc: A) -> Option<Drum<A>> {
    let mut drum = Drum::new(alloc).ok()?;
    drum.put(address(64), Word::of_bits(4));
    drum.put(address(4095), Word::of_bits(0x8000_0000));
    Some(drum)
}

/// A machine with such a drum.
fn opening_of_two() -> Option<Whole> {
    opening((2, [0, 4, 0x8000_0000]))
}

/// How a refused making ends whose drum was handed back: with it the machine is made.
fn made_again<A: Allocator + Copy>(alloc: A, drum: Drum<A>) -> End {
    match Machine::with_drum(alloc, drum) {
        Ok(machine) => end_of(false, is_whole(&machine, &opening_of_two())),
        Err(_) => End::Otherwise,
    }
}

/// The making of a drum and of a machine with it. A drum that is handed back is tried again.
fn made_with_drum<A: Allocator + Copy>(alloc: A) -> End {
    let Some(drum) = drum_of_two(alloc) else {
        return End::Refused;
    };
    match Machine::with_drum(alloc, drum) {
        Ok(machine) => end_with(&machine, &opening_of_two()),
        Err(refused) => made_again(alloc, refused.value),
    }
}

/// The copy of a machine, which stays the same.
fn copied<A: Allocator + Clone>(machine: &Machine<A>, wanted: &Option<Whole>) -> End {
    match machine.copy() {
        Ok(copy) => end_with(&copy, wanted),
        Err(_) if is_whole(machine, wanted) => End::Refused,
        Err(_) => End::Otherwise,
    }
}

/// Whether a machine with such a drum and its copy are made, each growth of the copy having been refused.
fn copied_with_drum(limited: &Limited<Global>) -> bool {
    let Some(drum) = drum_of_two(limited) else {
        return false;
    };
    match Machine::with_drum(limited, drum) {
        Ok(machine) => in_turn(limited, || copied(&machine, &opening_of_two())) >= Some(1),
        Err(_) => false,
    }
}

#[test]
fn each_growth_of_a_new_machine_is_refused(rt: HostRuntime) {
    let limited = Limited::new(rt.alloc());
    let made = [
        in_turn(&limited, || made(&limited)) >= Some(1),
        in_turn(&limited, || made_with_drum(&limited)) >= Some(2),
        copied_with_drum(&limited),
    ];
    expect_eq(&rt, (made, limited.blocks_out()), ([true; 3], 0));
}

/// What a machine has that has printed and read. The print ends at 451, the order that switches the reader on at 460, and the input at 468 and three codes later.
fn shown_within_a_tape() -> Option<Whole> {
    let look = shown(3, 0x12, 0x0004_0000, Status::Going, 1621)?;
    let (printed, passed) = ((1, [57, 0, 0]), (3, [6, 10, 32]));
    Some((look, (3, [PRINT, 0, 0]), printed, passed, (2, [14, 32, 0])))
}

/// Whether a growth of the copy of such a machine is refused, and as many blocks are out after the copies as before them.
fn copied_within_a_tape(limited: &Limited<Global>) -> Option<[bool; 2]> {
    let machine = within_a_tape(limited)?;
    let wanted = shown_within_a_tape();
    let before = limited.blocks_out();
    let copied = in_turn(limited, || copied(&machine, &wanted));
    Some([copied >= Some(1), limited.blocks_out() == before])
}

#[test]
fn each_growth_of_a_copy_is_refused(rt: HostRuntime) {
    let limited = Limited::new(rt.alloc());
    expect_eq(&rt, copied_within_a_tape(&limited), Some([true; 2]));
}

/// Whether the next order is refused with the first growth.
fn order_is_refused<B: Allocator, A: Allocator>(
    limited: &Limited<B>,
    machine: &mut Machine<A>,
) -> bool {
    limited.refuse(1);
    matches!(next_order(machine), Err(OrderFault::Memory)) && limited.was_refused()
}

/// Whether the 451st word time is refused with the first growth.
fn turns_are_refused<B: Allocator, A: Allocator>(
    limited: &Limited<B>,
    machine: &mut Machine<A>,
) -> bool {
    limited.refuse(1);
    turns(machine, 500) == (451, Err(TurnFault::Memory)) && limited.was_refused()
}

/// A machine that is started on a print, and has printed a given number of codes.
fn shown_at_print(printed: usize, look: Option<Look>) -> Option<Whole> {
    let codes = (printed, if printed > 0 { [57, 0, 0] } else { [0; 3] });
    Some((look?, (1, [PRINT, 0, 0]), codes, NO_CODES, NO_CODES))
}

/// Whether a print without room in one call is refused and changes nothing; whether it is refused at its last word time and nothing
/// is printed then nor shows; and whether that word time prints when there is room.
fn prints<B: Allocator, A: Allocator>(limited: &Limited<B>, machine: &mut Machine<A>) -> [bool; 7] {
    let before = shown_at_print(0, shown(0, 0, 0, Status::Going, 0));
    let after = shown_at_print(1, shown(1, 0, PRINT, Status::Going, 451));
    [
        order_is_refused(limited, machine),
        is_whole(machine, &before),
        turns_are_refused(limited, machine),
        printed(machine) == (0, None),
        look(machine).is_none(),
        turn(machine) == Ok(true),
        is_whole(machine, &after),
    ]
}

/// That of a machine that is started on a print.
fn print_without_room(limited: &Limited<Global>) -> Option<[bool; 7]> {
    match started(limited, &[(0, PRINT)]) {
        Some(mut machine) => Some(prints(limited, &mut machine)),
        None => None,
    }
}

#[test]
fn a_code_without_room_is_not_printed(rt: HostRuntime) {
    let limited = Limited::new(rt.alloc());
    let prints = print_without_room(&limited);
    expect_eq(&rt, (prints, limited.blocks_out()), (Some([true; 7]), 0));
}

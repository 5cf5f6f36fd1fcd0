//! Presses within an order, and word times and presses played in one call.

use super::{
    CLOCK_END, PRINT, TRANSFER, look, play, press, printed, rest, shown, turns, with_words,
    within_an_order,
};
use crate::expect_eq;
use lgp_flexo::Code;
use lgp_limited::Limited;
use lgp_machine::{Look, Machine, PlayFault, PressFault, Pressed, TurnFault};
use lgp_table::{Action, Cause, Event, Mode, Status, Which};
use std::alloc::{Allocator, Global};

/// Seventeen actions. The first sixteen leave BREAK POINT 4 down only where the oldest one acts first; for the last, which would
/// leave it up, there is no place.
fn seventeen_actions() -> [Action; 17] {
    let mut actions = [Action::BreakPoint(Which::B4, true); 17];
    actions[0] = Action::BreakPoint(Which::B4, false);
    actions[15] = Action::Mode(Mode::OneOperation);
    actions[16] = Action::BreakPoint(Which::B4, false);
    actions
}

/// What shows where the sixteen actions have acted at the end of the first transfer.
fn shown_after_sixteen() -> Option<Look> {
    let mut look = shown(0, 0, TRANSFER, Status::Halted(Cause::Operator), 67)?;
    look.mode = Mode::OneOperation;
    look.switches.b4 = true;
    Some(look)
}

/// How many of these actions are kept before one is not, and what became of that one.
fn keep<A: Allocator>(
    machine: &mut Machine<A>,
    actions: &[Action],
) -> (usize, Result<Pressed, PressFault>) {
    let mut count = 0usize;
    for action in actions {
        let answer = press(machine, *action);
        if answer != Ok(Pressed::Kept) {
            return (count, answer);
        }
        count = count.saturating_add(1);
    }
    (count, Ok(Pressed::Kept))
}

/// What becomes of the seventeen actions, the word times up to the end of the activity, and what shows then.
type Acted = (
    (usize, Result<Pressed, PressFault>),
    (u64, Result<bool, TurnFault>),
    Option<Look>,
);

fn act_at_the_end(global: Global) -> Option<Acted> {
    let mut machine = within_an_order(global)?;
    let kept = keep(&mut machine, &seventeen_actions());
    let turned = turns(&mut machine, 100);
    Some((kept, turned, look(&machine)))
}

#[test]
fn sixteen_actions_act_at_the_end(rt: HostRuntime) {
    let kept = (16, Err(PressFault::Full));
    expect_eq(
        &rt,
        act_at_the_end(rt.alloc()),
        Some((kept, (66, Ok(true)), shown_after_sixteen())),
    );
}

/// A start, a word time, the seventeen actions and 66 word times.
fn events_of_actions() -> [Event; 85] {
    let actions = seventeen_actions();
    let mut events = [Event::WordTime; 85];
    events[0] = Event::Press(Action::Start);
    for place in 0..17usize {
        events[place + 2] = Event::Press(actions[place]);
    }
    events
}

/// What becomes of a play of these events, and what shows then.
fn play_actions(global: Global) -> Option<(Result<(), PlayFault>, Option<Look>)> {
    let mut machine = with_words(global, &[(0, TRANSFER)])?;
    let played = play(&mut machine, &events_of_actions());
    Some((played, look(&machine)))
}

#[test]
fn a_play_is_the_same_turns_and_presses(rt: HostRuntime) {
    expect_eq(
        &rt,
        play_actions(rt.alloc()),
        Some((Ok(()), shown_after_sixteen())),
    );
}

/// A start and three word times.
const FOUR: [Event; 4] = [
    Event::Press(Action::Start),
    Event::WordTime,
    Event::WordTime,
    Event::WordTime,
];

/// Whether a machine goes to two word times before the clock's end, and a play stops there.
fn plays_at_the_end(global: Global) -> Option<[bool; 2]> {
    let mut machine = with_words(global, &[(0, PRINT)])?;
    let stopped = PlayFault {
        done: 3,
        fault: TurnFault::ClockEnd,
    };
    Some([
        rest(&mut machine, CLOCK_END - 2).is_ok(),
        play(&mut machine, &FOUR) == Err(stopped),
    ])
}

/// A start, and 451 word times.
fn events_of_a_print() -> [Event; 452] {
    let mut events = [Event::WordTime; 452];
    events[0] = Event::Press(Action::Start);
    events
}

/// Plays these with the first growth refused, and a word time more: whether the last word time of the print is refused and nothing
/// is printed then nor shows, and the word time more prints.
fn plays_without_room(limited: &Limited<Global>) -> Option<[bool; 6]> {
    let mut machine = with_words(limited, &[(0, PRINT)])?;
    let stopped = PlayFault {
        done: 451,
        fault: TurnFault::Memory,
    };
    limited.refuse(1);
    Some([
        play(&mut machine, &events_of_a_print()) == Err(stopped),
        limited.was_refused(),
        printed(&machine) == (0, None),
        look(&machine).is_none(),
        play(&mut machine, &[Event::WordTime]) == Ok(()),
        printed(&machine) == (1, Code::new(57)),
    ])
}

#[test]
fn a_play_stops_at_the_clocks_end_and_where_there_is_no_room(rt: HostRuntime) {
    let limited = Limited::new(rt.alloc());
    let played = (plays_at_the_end(rt.alloc()), plays_without_room(&limited));
    expect_eq(
        &rt,
        (played, limited.blocks_out()),
        ((Some([true; 2]), Some([true; 6])), 0),
    );
}

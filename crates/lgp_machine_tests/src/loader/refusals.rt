//! Loads that are refused, and where the machine is then.

use super::*;

/// What shows where the clock's end stops a load at its first order: the answer, the status, the register and the accumulator. `true`
/// at last where nothing has been stored at the loader's first place.
type Stopped = (Result<u64, LoadFault>, Status, u32, u32, bool);

/// Loads a program one word time before the clock's end.
fn loaded_at_the_end(alloc: Global, source: &[u8], way: Way) -> Option<Stopped> {
    let task = (source, way, (CLOCK_END - 1, false));
    let (answer, look, is_blank) = loaded(alloc, task, &[(b"6300", b"00000000")])?;
    let look = look?;
    Some((
        answer,
        look.status,
        look.register.get(),
        look.accumulator,
        is_blank,
    ))
}

/// Stopped before the order that stores the loader's first word.
fn before_the_first_store() -> Option<Stopped> {
    let (register, accumulator) = (word(b"000j3w00").get(), word(b"00080000").get());
    let answer = Err(LoadFault::ClockEnd);
    Some((answer, Status::Executing, register, accumulator, true))
}

#[test]
fn loading_stops_before_the_order_that_passes_the_clocks_end(rt: HostRuntime) {
    let found = [
        loaded_at_the_end(rt.alloc(), ONE_WORD, Way::Longest),
        loaded_at_the_end(rt.alloc(), TWO_WORDS, Way::Cut(&[2])),
    ];
    expect_eq(&rt, found, [before_the_first_store(); 2]);
}

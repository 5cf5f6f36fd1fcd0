//! Loading a program.

ghost use Rattle.std.specs.Prelude.{◌≡◌, ◌≢◌, ◌+◌, ◌<◌, ◌≤◌, ◌↔◌, ℕ, None, Some, false, true, IsTrue, OnOk, Err, length, vec_len};
ghost use Rattle.std.specs.Bool.{OnFalse, OnTrue};
ghost use Rattle.lgp_flexo.specs.TapeText.{tape_limit};
ghost use Rattle.lgp_table.specs.Activity.{cost, next, print_of};
ghost use Rattle.lgp_table.specs.After.{after};
ghost use Rattle.lgp_table.specs.Console.{is_at_rest};
ghost use Rattle.lgp_table.specs.Interleaving.{after_mount, at_boundary, is_boundary};
ghost use Rattle.lgp_machine.specs.Answers.{clock_end};
ghost use Rattle.lgp_keyin.specs.KeyIn.{about_to_jump, keyed, started};
ghost use Rattle.lgp_keyin.specs.Keyed.{before_store};
ghost use Rattle.lgp_loader.specs.BlockLoading.{cut_load, longest_load};
ghost use Rattle.lgp_loader.specs.Cutting.{is_cutting};
ghost use Rattle.lgp_loader.specs.Loading.{IsLoader, load_with, loaded, loading_cost, loading_stopped};
ghost use Rattle.lgp_loader.specs.Loads.{IsLoad};
ghost use Rattle.lgp_loader.specs.LoadedOver.{IsLoadedOver};
ghost use Rattle.lgp_loader.specs.ReadyInside.{IsReady};
ghost use Rattle.lgp_loader.specs.SingleLoading.{single_load};
ghost use Rattle.lgp_assembler.specs.Parts.{loader_base};

use crate::reading::{Reading, in_cut, in_longest, in_single};
use crate::tape::CutFault;
use crate::words::{LOADER, LOADER_10};
use lgp_assembler::{Image, LOADER_PLACES};
use lgp_flexo::Code;
use lgp_keyin::{KeyFault, Operate, actions_to_jump, key_in, press_all};
use lgp_table::{Action, Mode};
use lgp_word::{Address, Word};
use std::alloc::Allocator;
use thiserror::Error;

/// Why a program is not loaded.
#[derive(Clone, Copy, Debug, PartialEq, Eq, Error)]
pub enum LoadFault {
    /// Nothing was pressed.
    #[error("an activity has been begun")]
    Moving,
    /// The machine is at the boundary whose activity would pass the clock's end.
    #[error("the clock would pass its end")]
    ClockEnd,
    /// Nothing was pressed.
    #[error("out of memory for the tape")]
    Memory,
    /// Nothing was pressed: the numbers do not cut the program's words into blocks.
    #[error("these are not the lengths of blocks")]
    BadCut,
}

/// The address at which a loader begins.
fn loader_base() -> Address
    ensures { result ≡ loader_base }
{
    match Address::new(LOADER_PLACES.start as u16) {
        Some(address) => address,
        None => unreachable!(),
    }
}

/// Mounts a tape of these codes on a machine at rest.
fn mount<A: Allocator, M: Operate<A>>(machine: &mut M, codes: Vec<Code, A>)
    requires rest { is_at_rest (M.configuration machine.old).state.core.panel.status ≡ true }
    requires short { vec_len codes ≤ tape_limit }
    ensures { M.configuration machine.new
        ≡ at_boundary (after_mount (M.configuration machine.old).state codes.items) }
{
    let tape = M::tape(&mut Some(codes));
    match machine.mount(tape) {
        Ok(()) => {}
        Err(_) => unreachable!(),
    }
}

/// Keys a loader in and mounts a tape. Answers false where key-in meets the end of the clock.
#[tactic(auto, using(crate::proofs::Begun::keyed_rests))]
fn prepare<A: Allocator, M: Operate<A>>(
    machine: &mut M,
    loader: &[Word],
    tape: Vec<Code, A>,
) -> bool
    requires boundary { IsTrue (is_boundary (M.configuration machine.old)) }
    requires loader { IsLoader loader.now }
    requires short { vec_len tape ≤ tape_limit }
    ensures prepared { OnTrue result (M.configuration machine.new ≡ at_boundary (after_mount
        (keyed (M.configuration machine.old).state loader_base loader.now) tape.items)) }
    ensures within { OnFalse result ((M.configuration machine.new).state.clock ≤ clock_end) }
    ensures stands { OnFalse result ((done : ℕ) × (done < length loader.now)
        × (M.configuration machine.new ≡ at_boundary
        (before_store (M.configuration machine.old).state loader_base loader.now done))) }
    ensures clock_end { OnFalse result (clock_end < (M.configuration machine.new).state.clock
        + cost (M.configuration machine.new).state) }
    ensures past { OnFalse result (clock_end
        < (keyed (M.configuration machine.old).state loader_base loader.now).clock) }
{
    match key_in(machine, loader_base(), loader) {
        Ok(()) => {
            mount(machine, tape);
            true
        }
        Err(KeyFault::ClockEnd) => false,
        Err(KeyFault::Moving | KeyFault::PastEnd) => unreachable!(),
    }
}

/// Starts the loader. Answers false where the order that jumps to it would pass the end of the clock: all is then pressed, and the
/// order not performed.
#[tactic(auto, using(lgp_keyin::proofs::ByHand::jumping))]
fn begin<A: Allocator, M: Operate<A>>(machine: &mut M) -> bool
    requires boundary { M.configuration machine.old
        ≡ at_boundary (M.configuration machine.old).state }
    requires up { (M.configuration machine.old).state.core.panel.switches.six_bit ≡ false }
    ensures begun { OnTrue result (M.configuration machine.new
        ≡ at_boundary (started (M.configuration machine.old).state loader_base)) }
    ensures within { OnFalse result ((M.configuration machine.new).state.clock ≤ clock_end) }
    ensures stands { OnFalse result (M.configuration machine.new
        ≡ at_boundary (about_to_jump (M.configuration machine.old).state loader_base)) }
    ensures clock_end { OnFalse result (clock_end < (M.configuration machine.new).state.clock
        + cost (M.configuration machine.new).state) }
{
    press_all(machine, &actions_to_jump(loader_base()));
    if !perform_one(machine) {
        return false;
    }
    press_all(machine, &[Action::Mode(Mode::Normal), Action::Start]);
    true
}

/// Performs an order that is at work and prints nothing. Answers false where it would pass the end of the clock.
fn perform_one<A: Allocator, M: Operate<A>>(machine: &mut M) -> bool
    requires boundary { M.configuration machine.old
        ≡ at_boundary (M.configuration machine.old).state }
    requires work { is_at_rest (M.configuration machine.old).state.core.panel.status ≡ false }
    requires silent { print_of (M.configuration machine.old).state.core ≡ None }
    ensures performed { OnTrue result (M.configuration machine.new
        ≡ at_boundary (next (M.configuration machine.old).state)) }
    ensures within { (M.configuration machine.new).state.clock ≤ clock_end }
    ensures stands { OnFalse result (M.configuration machine.new ≡ M.configuration machine.old) }
    ensures clock_end { OnFalse result (clock_end < (M.configuration machine.old).state.clock
        + cost (M.configuration machine.old).state) }
{
    machine.next_order().is_ok()
}

/// Performs a given number of orders that are at work and print nothing. Answers false where one of them would pass the end of the clock.
fn perform<A: Allocator, M: Operate<A>>(machine: &mut M, orders: u64) -> bool
    requires boundary { M.configuration machine.old
        ≡ at_boundary (M.configuration machine.old).state }
    requires work { (before : ℕ) → before < orders
        → is_at_rest (after (M.configuration machine.old).state before).core.panel.status ≡ false }
    requires silent { (before : ℕ) → before < orders
        → print_of (after (M.configuration machine.old).state before).core ≡ None }
    ensures performed { OnTrue result (M.configuration machine.new
        ≡ at_boundary (after (M.configuration machine.old).state orders)) }
    ensures clock { OnTrue result
        (0 < orders → (M.configuration machine.new).state.clock ≤ clock_end) }
    ensures within { OnFalse result ((M.configuration machine.new).state.clock ≤ clock_end) }
    ensures stands { OnFalse result ((done : ℕ) × (done < orders)
        × (M.configuration machine.new
        ≡ at_boundary (after (M.configuration machine.old).state done))) }
    ensures clock_end { OnFalse result (clock_end < (M.configuration machine.new).state.clock
        + cost (M.configuration machine.new).state) }
{
    for _ in 0..orders {
        if !perform_one(machine) {
            return false;
        }
    }
    true
}

/// Keys a loader in, mounts a tape, starts the loader and performs a given number of orders, which are at work and print nothing. Answers
/// false where the clock would pass its end.
#[tactic(auto, using(crate::proofs::Program::tape_loaded))]
fn load_tape<A: Allocator, M: Operate<A>>(
    machine: &mut M,
    loader: &[Word],
    tape: Vec<Code, A>,
    orders: u64,
) -> bool
    requires boundary { IsTrue (is_boundary (M.configuration machine.old)) }
    requires ready { IsReady (M.configuration machine.old).state
        (load_with loader.now tape.items orders) }
    ensures loaded { OnTrue result (M.configuration machine.new ≡ at_boundary
        (loaded (M.configuration machine.old).state (load_with loader.now tape.items orders))) }
    ensures time { OnTrue result ((M.configuration machine.new).state.clock
        ≡ (M.configuration machine.old).state.clock + loading_cost
        (M.configuration machine.old).state (load_with loader.now tape.items orders)) }
    ensures clock { OnTrue result ((loaded (M.configuration machine.old).state
        (load_with loader.now tape.items orders)).clock ≤ clock_end) }
    ensures stands { OnFalse result (loading_stopped (M.configuration machine.old).state
        (load_with loader.now tape.items orders) ≡ Some (M.configuration machine.new).state) }
    ensures own { OnFalse result (M.configuration machine.new
        ≡ at_boundary (M.configuration machine.new).state) }
    ensures past { OnFalse result (clock_end < (loaded (M.configuration machine.old).state
        (load_with loader.now tape.items orders)).clock) }
{
    if !prepare(machine, loader, tape) {
        return false;
    }
    if !begin(machine) {
        return false;
    }
    perform(machine, orders)
}

/// The same of a tape that is ready. Answers how many orders the loader has performed.
#[tactic(auto, using(crate::proofs::Stopped::stopped_nowhere))]
fn read<A: Allocator, M: Operate<A>>(
    machine: &mut M,
    loader: &[Word],
    reading: Reading<A>,
) -> Result<u64, LoadFault>
    requires boundary { IsTrue (is_boundary (M.configuration machine.old)) }
    requires ready { IsReady (M.configuration machine.old).state
        (load_with loader.now reading.tape.items reading.orders) }
    ensures load { IsLoad (load_with loader.now reading.tape.items reading.orders)
        (M.configuration machine.old) (M.configuration machine.new) result }
    ensures memory { result ≢ Err LoadFault.Memory }
    ensures bad_cut { result ≢ Err LoadFault.BadCut }
{
    let Reading { tape, orders } = reading;
    if load_tape(machine, loader, tape, orders) {
        Ok(orders)
    } else {
        Err(LoadFault::ClockEnd)
    }
}

/// Loads a program, as an operator does: the loader is keyed in, the tape mounted, and the loader started; it then reads the tape,
/// which has the longest blocks. Then each of the program's words lies at its place, and at every other place but the loader's 22
/// the word that was there before; the clock has gone on by what all activities of loading cost. Answers how many orders the
/// loader performed, 10 for each word, 8 for each block, and 5.
///
/// Refused, in this order: within an activity (`Moving`), where there is no memory for the tape (`Memory`), both before anything
/// is pressed; where the clock would pass its end (`ClockEnd`): the machine then is at the first boundary of the loading whose
/// activity would pass it.
pub fn load<A: Allocator + Copy, B: Allocator, M: Operate<A>>(
    alloc: A,
    machine: &mut M,
    image: &Image<B>,
) -> Result<u64, LoadFault>
    ensures load { IsLoad (longest_load image.now)
        (M.configuration machine.old) (M.configuration machine.new) result }
    ensures program { OnOk result (IsLoadedOver 22 (M.configuration machine.old).state.core.words
        (M.configuration machine.new).state.core.words image.now.cells) }
    ensures no_bad_cut { result ≢ Err LoadFault.BadCut }
{
    if machine.look().is_none() {
        return Err(LoadFault::Moving);
    }
    let Ok(reading) = in_longest(alloc, image) else {
        return Err(LoadFault::Memory);
    };
    read(machine, &LOADER, reading)
}

/// Loads a program as `load` does, from the tape in blocks of a given number of words each.
///
/// Refused, in this order: within an activity (`Moving`), where the numbers do not cut the program's words into blocks (`BadCut`),
/// where there is no memory for the tape (`Memory`), all before anything is pressed; where the clock would pass its end
/// (`ClockEnd`).
pub fn load_cut<A: Allocator + Copy, B: Allocator, M: Operate<A>>(
    alloc: A,
    machine: &mut M,
    image: &Image<B>,
    counts: &[usize],
) -> Result<u64, LoadFault>
    ensures load { IsLoad (cut_load image.now counts.now)
        (M.configuration machine.old) (M.configuration machine.new) result }
    ensures program { OnOk result (IsLoadedOver 22 (M.configuration machine.old).state.core.words
        (M.configuration machine.new).state.core.words image.now.cells) }
    ensures bad_cut { (result ≡ Err LoadFault.BadCut)
        ↔ (IsTrue (is_boundary (M.configuration machine.old))
        × (is_cutting counts.now image.now.cells ≡ false)) }
    ensures uncut { result ≡ Err LoadFault.BadCut
        → M.configuration machine.new ≡ M.configuration machine.old }
{
    if machine.look().is_none() {
        return Err(LoadFault::Moving);
    }
    let reading = match in_cut(alloc, image, counts) {
        Ok(reading) => reading,
        Err(CutFault::BadCut) => return Err(LoadFault::BadCut),
        Err(CutFault::Memory) => return Err(LoadFault::Memory),
    };
    read(machine, &LOADER, reading)
}

/// Loads a program cell by cell, by the loader of ten words. Answers how many orders it performed, 8 for each word and 5. Refused
/// as `load` is.
pub fn load_single<A: Allocator + Copy, B: Allocator, M: Operate<A>>(
    alloc: A,
    machine: &mut M,
    image: &Image<B>,
) -> Result<u64, LoadFault>
    ensures load { IsLoad (single_load image.now)
        (M.configuration machine.old) (M.configuration machine.new) result }
    ensures program { OnOk result (IsLoadedOver 10 (M.configuration machine.old).state.core.words
        (M.configuration machine.new).state.core.words image.now.cells) }
    ensures no_bad_cut { result ≢ Err LoadFault.BadCut }
{
    if machine.look().is_none() {
        return Err(LoadFault::Moving);
    }
    let Ok(reading) = in_single(alloc, image) else {
        return Err(LoadFault::Memory);
    };
    read(machine, &LOADER_10, reading)
}

//! The largest program taped and loaded.

use super::*;

/// A source of 4,074 words, each of which is four times its place: all places before the loader's and all after it.
fn full_source(alloc: Global) -> Result<Vec<u8>, AllocError> {
    let mut source = Vec::new(alloc);
    for _ in 0..4032u16 {
        source.extend_from_slice(b" z *\n")?;
    }
    source.extend_from_slice(b" org 6322\n")?;
    for _ in 0..42u16 {
        source.extend_from_slice(b" z *\n")?;
    }
    source.extend_from_slice(b" end\n")?;
    Ok(source)
}

/// Blocks of one word each.
const ONES: [usize; 4074] = [1; 4074];

/// The full program.
fn full_image(alloc: Global) -> Option<Image> {
    match full_source(alloc) {
        Ok(source) => image(alloc, source.as_slice()),
        Err(_) => None,
    }
}

/// How long its tapes are: in the longest blocks, in blocks of one word, and cell by cell.
fn full_lengths(alloc: Global) -> Option<[Result<usize, CutFault>; 3]> {
    let image = full_image(alloc)?;
    Some([
        tape_length(alloc, &image, Way::Longest),
        tape_length(alloc, &image, Way::Cut(&ONES)),
        tape_length(alloc, &image, Way::Single),
    ])
}

/// A block has 19 codes and nine for each word, a word alone has 19 codes, and the end word has nine.
#[test]
fn tapes_of_a_program_of_all_places_but_the_loaders(rt: HostRuntime) {
    let wanted = [
        Ok(2 * 19 + 4074 * 9 + 9),
        Ok(4074 * (19 + 9) + 9),
        Ok(4074 * 19 + 9),
    ];
    expect_eq(&rt, full_lengths(rt.alloc()), Some(wanted));
}

/// At how many places that are not the loader's a drum has another word than four times the place.
fn odd_places(machine: &Machine) -> u16 {
    let mut odd = 0u16;
    for number in 0..4096u16 {
        let free = number < 4032 || number > 4053;
        let found = Address::new(number).map(|place| machine.word(place).get());
        if free && found != Some(4 * u32::from(number)) {
            odd = odd.saturating_add(1);
        }
    }
    odd
}

/// What a load answers, and at how many places the drum then differs.
type Counted = (Result<u64, LoadFault>, u16);

fn load_and_count(alloc: Global, machine: &mut Machine, image: &Image, way: Way) -> Counted {
    let answer = load_by(alloc, machine, image, way);
    (answer, odd_places(machine))
}

/// The same on a new machine.
fn loaded_and_counted(alloc: Global, image: &Image, way: Way) -> Option<Counted> {
    let mut machine = machine_at(alloc, NEW)?;
    Some(load_and_count(alloc, &mut machine, image, way))
}

/// The same of the full program: in the longest blocks, in blocks of one word, and cell by cell.
fn full_loads(alloc: Global) -> Option<[Option<Counted>; 3]> {
    let image = full_image(alloc)?;
    Some([
        loaded_and_counted(alloc, &image, Way::Longest),
        loaded_and_counted(alloc, &image, Way::Cut(&ONES)),
        loaded_and_counted(alloc, &image, Way::Single),
    ])
}

/// Ten orders for each word, eight for each block and five for the end word; cell by cell eight for each word and five.
#[test]
fn a_program_of_all_places_but_the_loaders_is_loaded(rt: HostRuntime) {
    let wanted = [
        Some((Ok(10 * 4074 + 8 * 2 + 5), 0)),
        Some((Ok(10 * 4074 + 8 * 4074 + 5), 0)),
        Some((Ok(8 * 4074 + 5), 0)),
    ];
    expect_eq(&rt, full_loads(rt.alloc()), Some(wanted));
}

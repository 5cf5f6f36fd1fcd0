//! The lines of what words have to gain.

ghost use Rattle.std.specs.Prelude.{◌≡◌, ◌++◌, ◌<◌, ℕ, OnOk, flat_map};
ghost use Rattle.lgp_table.specs.State.{State};
ghost use Rattle.lgp_optimum.specs.Gains.{moves_in, moves_of};
ghost use Rattle.lgp_optimum.specs.OptimumKept.{IsOptimumOf};
ghost use Rattle.lgp_optimum.specs.OptimumLines.{bar_length, drawing_of, freedom_text, gain_line, greatest, mark_text, no_order_text, optimum_text, saved_text, section_heading, section_text, sector_line, together_line, track_of, track_text, word_text};

use crate::optimum::{Best, Optimum};
use crate::ranking::Gain;
use crate::uses::Freedom;
use lgp_text::{Piece, push_pieces};
use lgp_trace::{
    Labels, push_copies, push_place, push_place_column, push_share, push_spaced, push_totals,
    push_wide,
};
use lgp_word::Address;
use std::alloc::{AllocError, Allocator};

/// How many words of a freedom are shown.
const SHOWN_WORDS: u64 = 10;

/// Appends the line of a word.
#[tactic(auto, unfolding(crate::specs::OptimumLines::gain_line, crate::specs::OptimumLines::sectors_text))]
fn push_gain<L: Labels, A: Allocator>(
    text: &mut Vec<u8, A>,
    gain: &Gain,
    whole: u64,
    labels: &L,
) -> Result<(), AllocError>
    ensures { OnOk result (text.new.items
        ≡ text.old.items ++ gain_line (L.label labels.now) whole gain.now) }
{
    text.extend_from_slice(b"  ")?;
    push_place_column(text, 18, gain.word, labels)?;
    text.extend_from_slice(b"sector")?;
    push_spaced(text, 2, u64::from(gain.word.sector()))?;
    text.extend_from_slice(b", best")?;
    push_spaced(text, 2, u64::from(gain.best.sector))?;
    push_share(text, u128::from(gain.best.saved), whole)
}

/// Appends the lines of words.
fn push_gains<L: Labels, A: Allocator>(
    text: &mut Vec<u8, A>,
    gains: &[Gain],
    whole: u64,
    labels: &L,
) -> Result<(), AllocError>
    ensures { OnOk result (text.new.items
        ≡ text.old.items ++ flat_map (gain_line (L.label labels.now) whole) gains.now) }
{
    for gain in gains {
        push_gain(text, gain, whole, labels)?;
    }
    Ok(())
}

/// What is written above the words of a freedom.
#[tactic(auto, unfolding(crate::specs::OptimumLines::section_heading))]
fn section_heading(wanted: Freedom) -> &'static [u8]
    ensures { result.now ≡ section_heading wanted }
{
    match wanted {
        Freedom::Free => b"the ten words with most to gain\n",
        Freedom::Unnamed => b"named by no order\n",
        Freedom::Performed => b"should not be moved, because they were performed as orders\n",
        Freedom::NamedByChanged => {
            b"should not be moved, because a changed order or one only in the register named them\n"
        }
    }
}

/// Appends the ten words of a freedom with most to gain, if some have something to gain.
#[tactic(auto, unfolding(crate::specs::OptimumLines::section_text))]
fn push_section<L: Labels, A: Allocator + Copy, B: Allocator>(
    alloc: A,
    text: &mut Vec<u8, A>,
    optimum: &Optimum<B>,
    wanted: Freedom,
    labels: &L,
) -> Result<(), AllocError>
    ensures { OnOk result (text.new.items ≡ text.old.items
        ++ section_text (L.label labels.now) (moves_in optimum.now) wanted) }
{
    let words = optimum.ranking(alloc, wanted, SHOWN_WORDS)?;
    if words.is_empty() {
        return Ok(());
    }
    text.extend_from_slice(section_heading(wanted))?;
    push_gains(text, &words, optimum.took(), labels)
}

/// Appends what all words save together that may be moved.
#[tactic(auto, unfolding(crate::specs::OptimumLines::together_line))]
fn push_together<A: Allocator, B: Allocator>(
    text: &mut Vec<u8, A>,
    optimum: &Optimum<B>,
) -> Result<(), AllocError>
    ensures { OnOk result (text.new.items
        ≡ text.old.items ++ together_line (moves_in optimum.now)) }
{
    text.extend_from_slice(b"  all words that may be moved together")?;
    push_share(text, optimum.together(Freedom::Free), optimum.took())
}

/// Appends that no word was named.
fn push_no_order<A: Allocator>(text: &mut Vec<u8, A>) -> Result<(), AllocError>
    ensures { OnOk result (text.new.items ≡ text.old.items ++ no_order_text) }
{
    text.extend_from_slice(b"no order was performed, so no word was named\n")
}

/// Appends what the words have to gain by a given number of orders.
#[tactic(auto, unfolding(crate::specs::OptimumLines::optimum_text))]
fn push_moves<L: Labels, A: Allocator + Copy, B: Allocator>(
    alloc: A,
    text: &mut Vec<u8, A>,
    orders: u64,
    optimum: &Optimum<B>,
    labels: &L,
) -> Result<(), AllocError>
    ensures { OnOk result (text.new.items ≡ text.old.items
        ++ optimum_text (L.label labels.now) orders (moves_in optimum.now)) }
{
    if orders == 0 {
        return push_no_order(text);
    }
    push_totals(text, orders, optimum.took())?;
    push_section(alloc, text, optimum, Freedom::Free, labels)?;
    push_together(text, optimum)?;
    push_section(alloc, text, optimum, Freedom::Performed, labels)?;
    push_section(alloc, text, optimum, Freedom::NamedByChanged, labels)
}

/// Appends what the words have to gain by a given number of orders: those with most that may be moved, what all of these save together, and
/// those with most that may not.
pub fn push_optimum<L: Labels, A: Allocator + Copy, B: Allocator>(
    alloc: A,
    text: &mut Vec<u8, A>,
    orders: u64,
    optimum: &Optimum<B>,
    labels: &L,
) -> Result<(), AllocError>
    ensures exact { OnOk result (text.new.items ≡ text.old.items
        ++ optimum_text (L.label labels.now) orders (moves_in optimum.now)) }
    ensures of_run { (s : State) → (count : ℕ) → IsOptimumOf optimum.now s count
        → OnOk result (text.new.items ≡ text.old.items
        ++ optimum_text (L.label labels.now) orders (moves_of s count)) }
{
    push_moves(alloc, text, orders, optimum, labels)
}

/// What the line of a sector is drawn by: a word's own sector and its best one, and the least and the greatest of its numbers.
#[derive(Clone, Copy)]
pub struct Track {
    pub own: u16,
    pub best: u16,
    pub least: u128,
    pub most: u128,
}

/// The greatest of a word's numbers.
fn greatest(times: &[u128; 64]) -> u128
    ensures { result ≡ greatest times.now 64 }
{
    let mut most = 0;
    for sector in 0..64 {
        most = most.max(times[sector]);
    }
    most
}

/// How a word's numbers are drawn.
fn track_of(times: &[u128; 64], own: u16, best: u16) -> Track
    requires { best < 64 }
    ensures { result ≡ track_of times.now own best }
{
    Track {
        own,
        best,
        least: times[usize::from(best)],
        most: greatest(times),
    }
}

/// How many signs stand for a number.
fn bar_length(track: &Track, times: u128) -> u64
    ensures { result ≡ bar_length track.now times }
{
    let step = track.most.saturating_sub(track.least) / 40 + 1;
    1 + (times.saturating_sub(track.least) / step).min(39) as u64
}

/// What comes after the signs of a sector: whether it is the word's own, and whether it is the best.
#[tactic(auto, unfolding(crate::specs::OptimumLines::mark_text))]
fn mark(track: &Track, sector: u16) -> &'static [u8]
    ensures { result.now ≡ mark_text track.now sector }
{
    match (sector == track.own, sector == track.best) {
        (true, true) => b" own best\n",
        (true, false) => b" own\n",
        (false, true) => b" best\n",
        (false, false) => b"\n",
    }
}

/// Appends the line of a sector.
#[tactic(auto, unfolding(crate::specs::OptimumLines::sector_line))]
fn push_sector<A: Allocator>(
    text: &mut Vec<u8, A>,
    track: &Track,
    sector: u16,
    times: u128,
) -> Result<(), AllocError>
    ensures { OnOk result (text.new.items
        ≡ text.old.items ++ sector_line track.now sector times) }
{
    text.extend_from_slice(b"  sector")?;
    push_spaced(text, 2, u64::from(sector))?;
    push_wide(text, 12, times)?;
    text.extend_from_slice(b"  ")?;
    push_copies(text, b'#', bar_length(track, times))?;
    text.extend_from_slice(mark(track, sector))
}

/// Appends the lines of all sectors, in the order in which they pass the head.
#[tactic(auto, unfolding(crate::specs::OptimumLines::track_text))]
fn push_track<A: Allocator>(
    text: &mut Vec<u8, A>,
    track: &Track,
    times: &[u128; 64],
) -> Result<(), AllocError>
    ensures { OnOk result (text.new.items
        ≡ text.old.items ++ track_text track.now times.now) }
{
    for position in 0..Address::SECTORS {
        let sector = 57 * position % Address::SECTORS;
        push_sector(text, track, sector, times[usize::from(sector)])?;
    }
    Ok(())
}

/// Appends the numbers of a word along its track, if they are not all the same.
fn push_drawing<A: Allocator, B: Allocator>(
    text: &mut Vec<u8, A>,
    optimum: &Optimum<B>,
    word: Address,
) -> Result<(), AllocError>
    ensures { OnOk result (text.new.items
        ≡ text.old.items ++ drawing_of (moves_in optimum.now) word) }
{
    let times = optimum.at(word);
    let track = track_of(&times, word.sector(), optimum.best(word).sector);
    if track.most == track.least {
        return Ok(());
    }
    push_track(text, &track, &times)
}

/// Appends that a word may be moved, and what it saves.
#[tactic(auto, unfolding(crate::specs::OptimumLines::saved_text))]
fn push_saved<A: Allocator>(
    text: &mut Vec<u8, A>,
    saved: u64,
    sector: u64,
) -> Result<(), AllocError>
    ensures { OnOk result (text.new.items ≡ text.old.items ++ saved_text saved sector) }
{
    push_pieces(
        text,
        &[
            Piece::Text(b"  it may be moved, and saves "),
            Piece::Number(saved),
            Piece::Text(b" word times at sector "),
            Piece::Number(sector),
            Piece::Text(b"\n"),
        ],
    )
}

/// Appends whether a word may be moved.
#[tactic(auto, unfolding(crate::specs::OptimumLines::freedom_text))]
fn push_freedom<A: Allocator>(
    text: &mut Vec<u8, A>,
    free: Freedom,
    best: Best,
) -> Result<(), AllocError>
    ensures { OnOk result (text.new.items ≡ text.old.items ++ freedom_text free best) }
{
    let sentence: &[u8] = match free {
        Freedom::Free => return push_saved(text, best.saved, u64::from(best.sector)),
        Freedom::Unnamed =>
            b"  no order waited for it or stood there, so its sector makes no difference\n",
        Freedom::Performed => b"  it should not be moved, because it was performed as an order\n",
        Freedom::NamedByChanged => {
            b"  it should not be moved, because a changed order or one only in the register named it\n"
        }
    };
    text.extend_from_slice(sentence)
}

/// Appends what a word has to gain by a given number of orders.
#[tactic(auto, unfolding(crate::specs::OptimumLines::word_text))]
fn push_word_moves<L: Labels, A: Allocator, B: Allocator>(
    text: &mut Vec<u8, A>,
    orders: u64,
    optimum: &Optimum<B>,
    word: Address,
    labels: &L,
) -> Result<(), AllocError>
    ensures { OnOk result (text.new.items ≡ text.old.items
        ++ word_text (L.label labels.now) orders (moves_in optimum.now) word) }
{
    if orders == 0 {
        return push_no_order(text);
    }
    push_totals(text, orders, optimum.took())?;
    push_place(text, word, labels)?;
    text.push(b'\n')?;
    push_drawing(text, optimum, word)?;
    push_freedom(text, optimum.freedom(word), optimum.best(word))
}

/// Appends what a given number of orders would have taken with a word at each sector of its track, and whether it may be moved.
pub fn push_word_optimum<L: Labels, A: Allocator, B: Allocator>(
    text: &mut Vec<u8, A>,
    orders: u64,
    optimum: &Optimum<B>,
    word: Address,
    labels: &L,
) -> Result<(), AllocError>
    ensures exact { OnOk result (text.new.items ≡ text.old.items
        ++ word_text (L.label labels.now) orders (moves_in optimum.now) word) }
    ensures of_run { (s : State) → (count : ℕ) → IsOptimumOf optimum.now s count
        → OnOk result (text.new.items ≡ text.old.items
        ++ word_text (L.label labels.now) orders (moves_of s count) word) }
{
    push_word_moves(text, orders, optimum, word, labels)
}

//! The words of a line.

ghost use Rattle.std.specs.Prelude.{◌≡◌, ◌≤◌, length};
ghost use Rattle.std.specs.List.{position};
ghost use Rattle.lgp_stream.specs.LineWords.{after_word, first_word, has_no_word, is_space, is_visible, without_spaces};

/// The place of a text's first byte that is no space.
fn first_visible(text: &[u8]) -> Option<usize>
    ensures { result ≡ position is_visible text.now }
{
    text.iter().position(|byte| *byte != b' ')
}

/// The place of a text's first space.
fn first_space(text: &[u8]) -> Option<usize>
    ensures { result ≡ position is_space text.now }
{
    text.iter().position(|byte| *byte == b' ')
}

/// A text from its first byte on that is no space.
#[tactic(auto, using(crate::proofs::PlaceLemmas::places), unfolding(crate::specs::LineWords::without_spaces))]
pub fn without_spaces(text: &[u8]) -> &[u8]
    ensures text { result.now ≡ without_spaces text.now }
    ensures shorter { length result.now ≤ length text.now }
{
    let (_, text) = text.split_at(first_visible(text).unwrap_or(text.len()));
    text
}

/// A word and what comes after it.
#[derive(Clone, Copy)]
pub struct Split<'a> {
    pub word: &'a [u8],
    pub rest: &'a [u8],
}

/// The first word of a text.
#[tactic(auto, using(crate::proofs::PlaceLemmas::places), unfolding(crate::specs::LineWords::first_word, crate::specs::LineWords::after_word))]
pub fn split_word(text: &[u8]) -> Split<'_>
    ensures word { result.word.now ≡ first_word text.now }
    ensures rest { result.rest.now ≡ after_word text.now }
    ensures shorter { length result.rest.now ≤ length text.now }
{
    let text = without_spaces(text);
    let (word, rest) = text.split_at(first_space(text).unwrap_or(text.len()));
    Split { word, rest }
}

/// Whether no word is left.
#[tactic(auto, unfolding(crate::specs::LineWords::has_no_word))]
pub fn has_no_word(text: &[u8]) -> bool
    ensures { result ≡ has_no_word text.now }
{
    text.iter().all(|byte| *byte == b' ')
}

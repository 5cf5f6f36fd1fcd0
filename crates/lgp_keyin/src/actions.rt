//! What is pressed to store a word, and to start a program.

ghost use Rattle.std.specs.Prelude.{◌≡◌};
ghost use Rattle.lgp_word.specs.Address.{IsAddress};
ghost use Rattle.lgp_word.specs.Word.{IsWord};
ghost use Rattle.lgp_keyin.specs.KeyIn.{jump_actions, start_actions, store_actions, word_keys};

use lgp_flexo::codes_of_word;
use lgp_table::{Action, Mode};
use lgp_word::{Address, Op, Word, plain_order};

/// The keys of a word's eight digits.
fn word_keys(word: Word) -> [Action; 8]
    ensures { result ≡ word_keys word }
{
    let [a, b, c, d, e, f, g, h] = codes_of_word(word);
    [
        Action::Key(a),
        Action::Key(b),
        Action::Key(c),
        Action::Key(d),
        Action::Key(e),
        Action::Key(f),
        Action::Key(g),
        Action::Key(h),
    ]
}

/// What is pressed before one order stores the word at the address: Manual, the digits of `h` to the address, Fill, the word's
/// digits, One Operation and Execute.
#[tactic(auto, unfolding(lgp_flexo::specs::WordCodes::word_codes, lgp_flexo::specs::WordCodes::four_digit_codes))]
pub fn actions_to_store(address: Address, word: Word) -> [Action; 20]
    ensures actions { result ≡ store_actions address word }
    ensures address { IsAddress address }
    ensures word { IsWord word }
{
    let [a, b, c, d, e, f, g, h] = word_keys(plain_order(Op::H, address));
    let [i, j, k, l, m, n, o, p] = word_keys(word);
    let manual = Action::Mode(Mode::Manual);
    let one_operation = Action::Mode(Mode::OneOperation);
    [
        manual,
        a,
        b,
        c,
        d,
        e,
        f,
        g,
        h,
        Action::Fill,
        i,
        j,
        k,
        l,
        m,
        n,
        o,
        p,
        one_operation,
        Action::Execute,
    ]
}

/// What is pressed before one order jumps to the address: Manual, the digits of `u` to the address, Fill, One Operation and
/// Execute.
pub fn actions_to_jump(address: Address) -> [Action; 12]
    ensures { result ≡ jump_actions address }
{
    let [a, b, c, d, e, f, g, h] = word_keys(plain_order(Op::U, address));
    let manual = Action::Mode(Mode::Manual);
    let one_operation = Action::Mode(Mode::OneOperation);
    [
        manual,
        a,
        b,
        c,
        d,
        e,
        f,
        g,
        h,
        Action::Fill,
        one_operation,
        Action::Execute,
    ]
}

/// What is pressed to start a program at the address: what `actions_to_jump` gives, and, once that order has been performed,
/// Normal and Start.
#[tactic(auto, unfolding(lgp_flexo::specs::WordCodes::word_codes, lgp_flexo::specs::WordCodes::four_digit_codes))]
pub fn actions_to_start(address: Address) -> [Action; 14]
    ensures { result ≡ start_actions address }
{
    let [a, b, c, d, e, f, g, h, i, j, k, l] = actions_to_jump(address);
    [
        a,
        b,
        c,
        d,
        e,
        f,
        g,
        h,
        i,
        j,
        k,
        l,
        Action::Mode(Mode::Normal),
        Action::Start,
    ]
}

//! What is said after a run that is reported.

ghost use Rattle.std.specs.Prelude.{◌≡◌, ◌++◌, ◌∷◌, [], ◌==◌, OnOk, codes, if◌then◌else◌};
ghost use Rattle.lgp_text.specs.Pieces.{pieces_text};
ghost use Rattle.lgp_fields.specs.Printed.{record_in};
ghost use Rattle.lgp_fields.specs.Plain.{Nothing, Text};
ghost use Rattle.lgp_fields.specs.Seen.{value_seen};
ghost use Rattle.lgp_table.specs.declared.panel.Mode.{Mode};
ghost use Rattle.lgp_table.specs.declared.panel.Status.{Status};
ghost use Rattle.lgp_monitor.specs.RunEnds.{ends_open, ran_record, ran_words, reason_words, rule_words, stand_text, stand_words};

use lgp_data::{state_sentence, way_sentence};
use lgp_debugger::{Ran, Reason};
use lgp_fields::{Field, RecordForm, Value, push_record};
use lgp_table::{Mode, Status};
use lgp_text::{Piece, push_pieces};
use std::alloc::{AllocError, Allocator};

/// Whether a run leaves open in which state the machine is.
pub fn ends_open(ran: &Ran) -> bool
    ensures { result ≡ ends_open ran.now.orders ran.now.reason }
{
    match ran.reason {
        Reason::Rest => ran.orders == 0,
        Reason::Rule(_) => true,
        Reason::Limit => false,
    }
}

/// The machine's state, and what lets it go on.
fn stand_pieces(status: Status, mode: Mode) -> [Piece<'static>; 3]
    ensures { pieces_text result ≡ stand_words status mode }
{
    [
        Piece::Text(state_sentence(status)),
        Piece::Text(b": "),
        Piece::Text(way_sentence(status, mode)),
    ]
}

/// Appends the machine's state, and what lets it go on, after blanks.
#[tactic(auto, unfolding(crate::specs::RunEnds::stand_text))]
pub fn push_stand<A: Allocator>(
    text: &mut Vec<u8, A>,
    status: Status,
    mode: Mode,
) -> Result<(), AllocError>
    ensures { OnOk result (text.new.items ≡ text.old.items ++ stand_text status mode) }
{
    text.extend_from_slice(b"        ")?;
    push_pieces(text, &stand_pieces(status, mode))?;
    text.extend_from_slice(b"\n")
}

/// What ended a run.
fn reason_words(reason: Reason) -> &'static [u8]
    ensures { result.now ≡ reason_words reason }
{
    match reason {
        Reason::Rest => b" rest",
        Reason::Limit => b" limit",
        Reason::Rule(_) => b" rule ",
    }
}

/// The number of the rule that stopped a run.
fn rule_piece(reason: Reason) -> Piece<'static>
    ensures { pieces_text (result ∷ []) ≡ rule_words reason }
{
    match reason {
        Reason::Rule(number) => Piece::Number(u64::from(number)),
        Reason::Rest | Reason::Limit => Piece::Text(b""),
    }
}

/// How many orders a run performed, and what ended it.
fn ran_pieces(ran: &Ran) -> [Piece<'static>; 3]
    ensures { pieces_text result ≡ ran_words ran.now }
{
    [
        Piece::Number(ran.orders),
        Piece::Text(reason_words(ran.reason)),
        rule_piece(ran.reason),
    ]
}

/// The machine's state, where a run leaves it open.
fn stand_value<'a>(ran: &Ran, pieces: &'a [Piece<'a>]) -> Value<'a>
    ensures { value_seen result ≡ (if ends_open ran.now.orders ran.now.reason
        then Text (pieces_text pieces.now) else Nothing) }
{
    if ends_open(ran) {
        Value::Pieces(pieces)
    } else {
        Value::Nothing
    }
}

/// Appends what a run came to, with its words and the machine's state.
#[tactic(auto, unfolding(crate::specs::RunEnds::ran_record))]
fn push_words<'a, A: Allocator>(
    text: &mut Vec<u8, A>,
    form: RecordForm,
    ran: &Ran,
    words: &'a [Piece<'a>],
    stand: &'a [Piece<'a>],
) -> Result<(), AllocError>
    requires { pieces_text words.now ≡ ran_words ran.now }
    ensures { (status : Status) → (mode : Mode) → pieces_text stand.now ≡ stand_words status mode
        → OnOk result (text.new.items
        ≡ text.old.items ++ record_in form (ran_record ran.now status mode)) }
{
    let fields: [Field; 2] = [
        (b"ran", Value::Pieces(words)),
        (b"state", stand_value(ran, stand)),
    ];
    push_record(text, form, &fields)
}

/// Appends what a run came to as a record in a form.
pub fn push_ran<A: Allocator>(
    text: &mut Vec<u8, A>,
    form: RecordForm,
    ran: &Ran,
    status: Status,
    mode: Mode,
) -> Result<(), AllocError>
    ensures { OnOk result (text.new.items
        ≡ text.old.items ++ record_in form (ran_record ran.now status mode)) }
{
    push_words(
        text,
        form,
        ran,
        &ran_pieces(ran),
        &stand_pieces(status, mode),
    )
}

//! A profile as records.

ghost use Rattle.std.specs.Prelude.{◌≡◌, ◌++◌, OnOk};
ghost use Rattle.lgp_trace.specs.Phases.{all_phases};
ghost use Rattle.lgp_trace.specs.ProfileLines.{turns_text};
ghost use Rattle.lgp_text.specs.Pieces.{pieces_text};
ghost use Rattle.lgp_fields.specs.Printed.{record_in};
ghost use Rattle.lgp_fields.specs.Seen.{fields_seen};
ghost use Rattle.lgp_data.specs.ProfileData.{place_in, place_record, profile_in, profile_record};

use crate::words::labelled_place;
use lgp_assembler::Name;
use lgp_fields::{Field, RecordForm, Value, push_record};
use lgp_text::Piece;
use lgp_trace::{Places, Profile, push_places};
use lgp_word::Address;
use std::alloc::{AllocError, Allocator};

/// Word times in turns of the drum.
#[tactic(auto, unfolding(lgp_trace::specs::ProfileLines::turns_text))]
fn turns_pieces(times: u64) -> [Piece<'static>; 3]
    ensures { pieces_text result ≡ turns_text times }
{
    [
        Piece::Number(times / 64),
        Piece::Text(b"."),
        Piece::Number(times % 64 * 10 / 64),
    ]
}

/// What is told of the whole, with its turns.
#[tactic(auto, unfolding(crate::specs::ProfileData::profile_record))]
fn whole_fields<'a, A: Allocator>(
    orders: u64,
    profile: &Profile<A>,
    turns: &'a [Piece<'a>],
) -> [Field<'a>; 8]
    requires { pieces_text turns.now ≡ turns_text (all_phases profile.now.phases) }
    ensures { fields_seen result ≡ profile_record orders profile.now }
{
    let phases = profile.phases();
    [
        (b"orders", Value::Number(orders)),
        (b"times", Value::Number(profile.times())),
        (b"turns", Value::Pieces(turns)),
        (b"find", Value::Number(phases.find)),
        (b"take", Value::Number(phases.take)),
        (b"seek", Value::Number(phases.seek)),
        (b"act", Value::Number(phases.act)),
        (b"elsewhere", Value::Number(profile.elsewhere())),
    ]
}

/// Appends the record of the whole, with its turns.
fn push_whole_with<'a, A: Allocator, B: Allocator>(
    text: &mut Vec<u8, A>,
    form: RecordForm,
    orders: u64,
    profile: &Profile<B>,
    turns: &'a [Piece<'a>],
) -> Result<(), AllocError>
    requires { pieces_text turns.now ≡ turns_text (all_phases profile.now.phases) }
    ensures { OnOk result (text.new.items
        ≡ text.old.items ++ record_in form (profile_record orders profile.now)) }
{
    let fields = whole_fields(orders, profile, turns);
    push_record(text, form, &fields)
}

/// Appends the record of the whole.
fn push_whole<A: Allocator, B: Allocator>(
    text: &mut Vec<u8, A>,
    form: RecordForm,
    orders: u64,
    profile: &Profile<B>,
) -> Result<(), AllocError>
    ensures { OnOk result (text.new.items
        ≡ text.old.items ++ record_in form (profile_record orders profile.now)) }
{
    let turns = turns_pieces(profile.times());
    push_whole_with(text, form, orders, profile, &turns)
}

/// Places as records in a form, with names as labels.
#[derive(Clone, Copy)]
struct PlaceRecords<'a> {
    form: RecordForm,
    names: &'a [(Name, u16)],
}

impl Places for PlaceRecords<'_> {
    ghost told = { λ records. place_in records.form records.names.now };

    #[tactic(auto, unfolding(crate::specs::ProfileData::place_record))]
    fn push_place<A: Allocator>(
        &self,
        text: &mut Vec<u8, A>,
        place: Address,
        times: u64,
    ) -> Result<(), AllocError> {
        let fields: [Field; 2] = [
            (b"place", labelled_place(self.names, place)),
            (b"times", Value::Number(times)),
        ];
        push_record(text, self.form, &fields)
    }
}

/// Appends the profile of a given number of orders as records in a form: one of the whole, and one for each of the ten dearest places.
#[tactic(auto, unfolding(crate::specs::ProfileData::profile_in))]
pub fn push_profile_data<A: Allocator, B: Allocator>(
    text: &mut Vec<u8, A>,
    form: RecordForm,
    names: &[(Name, u16)],
    orders: u64,
    profile: &Profile<B>,
) -> Result<(), AllocError>
    ensures { OnOk result (text.new.items
        ≡ text.old.items ++ profile_in form names.now orders profile.now) }
{
    push_whole(text, form, orders, profile)?;
    push_places(text, profile, &PlaceRecords { form, names })
}

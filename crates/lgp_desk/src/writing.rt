//! What is written for a reply.

ghost use Rattle.std.specs.Prelude.{◌≡◌, ◌++◌, IfOk, OnOk, codes, if◌then◌else◌};
ghost use Rattle.lgp_desk.specs.Desk.{echo_in, echo_of, form_in, note_line, written, written_last, written_own};

use crate::json;
use lgp_fields::RecordForm;
use lgp_monitor::Answered;
use std::alloc::{AllocError, Allocator};

/// For how many bytes there is room where a reply begins; most replies are shorter.
pub(crate) const REPLY_ROOM: usize = 1024;

/// How replies are written.
#[derive(Clone, Copy, Debug, PartialEq, Eq)]
pub enum Manner {
    /// The replies alone.
    Bare,
    /// A prompt in front of each line that is typed.
    Prompting,
    /// Each line above its reply, and of a text that no line has room for what it is for.
    Echoing,
    /// An object of JSON for each line, on a line of its own.
    Json,
}

/// The form of replies for programs.
pub(crate) fn form_in(manner: Manner) -> RecordForm
    ensures { result ≡ form_in manner }
{
    match manner {
        Manner::Json => RecordForm::Objects,
        Manner::Bare | Manner::Prompting | Manner::Echoing => RecordForm::Lines,
    }
}

/// The mark in front of a line that is shown above its reply.
fn mark_of(refused: bool) -> &'static [u8]
    ensures { result.now ≡ (if refused then codes "? " else codes "> ") }
{
    if refused { b"? " } else { b"> " }
}

/// The end of a line that is shown.
fn line_end(longer: bool) -> &'static [u8]
    ensures { result.now ≡ (if longer then codes " ..\n" else codes "\n") }
{
    if longer { b" ..\n" } else { b"\n" }
}

/// Appends a line that is shown above its reply, by its front.
#[tactic(auto, unfolding(crate::specs::Desk::echo_of))]
fn push_echo<A: Allocator>(
    text: &mut Vec<u8, A>,
    refused: bool,
    front: &[u8],
    longer: bool,
) -> Result<(), AllocError>
    ensures { OnOk result (text.new.items
        ≡ text.old.items ++ echo_of refused front.now longer) }
{
    text.extend_from_slice(mark_of(refused))?;
    text.extend_from_slice(front)?;
    text.extend_from_slice(line_end(longer))
}

/// Appends a line, by its front, where lines are shown above their replies.
pub(crate) fn push_shown<A: Allocator>(
    text: &mut Vec<u8, A>,
    manner: Manner,
    refused: bool,
    front: &[u8],
    longer: bool,
) -> Result<(), AllocError>
    ensures { OnOk result (text.new.items
        ≡ text.old.items ++ echo_in manner (echo_of refused front.now longer)) }
{
    match manner {
        Manner::Bare | Manner::Prompting | Manner::Json => Ok(()),
        Manner::Echoing => push_echo(text, refused, front, longer),
    }
}

/// Appends a note on a line of its own.
fn push_note<A: Allocator>(text: &mut Vec<u8, A>, note: &[u8]) -> Result<(), AllocError>
    ensures { OnOk result (text.new.items
        ≡ text.old.items ++ (codes "        " ++ (note.now ++ codes "\n"))) }
{
    text.extend_from_slice(b"        ")?;
    text.extend_from_slice(note)?;
    text.extend_from_slice(b"\n")
}

/// Appends where the line of a refusal comes from.
#[tactic(auto, unfolding(crate::specs::Desk::note_line))]
fn push_note_line<A: Allocator>(
    text: &mut Vec<u8, A>,
    refused: bool,
    note: &[u8],
) -> Result<(), AllocError>
    ensures { OnOk result (text.new.items
        ≡ text.old.items ++ note_line refused note.now) }
{
    if refused && !note.is_empty() {
        return push_note(text, note);
    }
    Ok(())
}

/// Appends a reply and, where it is a refusal, where its line comes from.
fn push_noted<A: Allocator>(
    text: &mut Vec<u8, A>,
    note: &[u8],
    refused: bool,
    reply: &[u8],
) -> Result<(), AllocError>
    ensures { OnOk result (text.new.items
        ≡ text.old.items ++ (reply.now ++ note_line refused note.now)) }
{
    text.extend_from_slice(reply)?;
    push_note_line(text, refused, note)
}

/// Appends what is written for a line, of which this is the front.
pub(crate) fn push_written<A: Allocator>(
    text: &mut Vec<u8, A>,
    manner: Manner,
    front: &[u8],
    longer: bool,
    note: &[u8],
    answer: Answered,
    reply: &[u8],
) -> Result<(), AllocError>
    ensures { OnOk result (text.new.items
        ≡ text.old.items ++ written manner front.now longer note.now answer reply.now) }
{
    if manner == Manner::Json {
        return json::push_answer(text, front, longer, note, answer, reply);
    }
    push_shown(text, manner, answer.is_refused, front, longer)?;
    push_noted(text, note, answer.is_refused, reply)
}

/// What is written for a line, of which this is the front. A reply that is written as it is has no second text.
pub(crate) fn written<A: Allocator + Copy>(
    alloc: A,
    manner: Manner,
    front: &[u8],
    longer: bool,
    note: &[u8],
    answer: Answered,
    mut reply: Vec<u8, A>,
) -> Result<Vec<u8, A>, AllocError>
    ensures { IfOk result (λ text. text.items
        ≡ written manner front.now longer note.now answer reply.items) }
{
    match manner {
        Manner::Bare | Manner::Prompting => {
            push_note_line(&mut reply, answer.is_refused, note)?;
            Ok(reply)
        }
        Manner::Echoing | Manner::Json => {
            let mut text = Vec::with_capacity(alloc, REPLY_ROOM)?;
            push_written(&mut text, manner, front, longer, note, answer, &reply)?;
            Ok(text)
        }
    }
}

/// Appends what is written for a reply of the desk itself.
pub(crate) fn push_own<A: Allocator>(
    text: &mut Vec<u8, A>,
    manner: Manner,
    note: &[u8],
    refused: bool,
    reply: &[u8],
) -> Result<(), AllocError>
    ensures { OnOk result (text.new.items
        ≡ text.old.items ++ written_own manner note.now refused reply.now) }
{
    match manner {
        Manner::Json => json::push_own(text, note, refused, reply),
        Manner::Bare | Manner::Prompting | Manner::Echoing => {
            push_noted(text, note, refused, reply)
        }
    }
}

/// Appends what is written at the end.
#[tactic(auto, unfolding(crate::specs::Desk::written_last))]
pub(crate) fn push_last<A: Allocator>(
    text: &mut Vec<u8, A>,
    manner: Manner,
    refused: bool,
    reply: &[u8],
) -> Result<(), AllocError>
    ensures { OnOk result (text.new.items
        ≡ text.old.items ++ written_last manner refused reply.now) }
{
    match manner {
        Manner::Json if reply.is_empty() => Ok(()),
        Manner::Json => json::push_own(text, b"", refused, reply),
        Manner::Bare | Manner::Echoing => text.extend_from_slice(reply),
        Manner::Prompting => {
            text.extend_from_slice(reply)?;
            text.extend_from_slice(b"\n")
        }
    }
}

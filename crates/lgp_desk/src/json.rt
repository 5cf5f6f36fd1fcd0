//! Replies as objects of JSON, each on a line of its own.

ghost use Rattle.std.specs.Prelude.{◌≡◌, ◌++◌, [], OnOk, codes, if◌then◌else◌, map, true};
ghost use Rattle.bstr.specs.Text.{lines_of, without_terminator};
ghost use Rattle.lgp_desk.specs.Json.{json_answer, json_line, json_lines, json_note, json_own, json_reply, json_string, json_typed};

use bstr::ByteSlice;
use lgp_fields::push_escaped;
use lgp_monitor::Answered;
use std::alloc::{AllocError, Allocator};

/// Appends a string.
#[tactic(auto, unfolding(crate::specs::Json::json_string))]
fn push_string<A: Allocator>(text: &mut Vec<u8, A>, bytes: &[u8]) -> Result<(), AllocError>
    ensures { OnOk result (text.new.items ≡ text.old.items ++ json_string bytes.now) }
{
    text.extend_from_slice(b"\"")?;
    push_escaped(text, bytes)?;
    text.extend_from_slice(b"\"")
}

/// Appends a line of a reply.
#[tactic(auto, unfolding(crate::specs::Json::json_line))]
fn push_line<A: Allocator>(
    text: &mut Vec<u8, A>,
    objects: bool,
    line: &[u8],
) -> Result<(), AllocError>
    ensures { OnOk result (text.new.items ≡ text.old.items ++ json_line objects line.now) }
{
    if objects {
        return text.extend_from_slice(line);
    }
    push_string(text, line)
}

/// What is in front of a line of a reply.
fn separator(first: bool) -> &'static [u8]
    ensures { result.now ≡ (if first then [] else codes ",") }
{
    if first { b"" } else { b"," }
}

/// Appends the lines of a reply.
#[tactic(auto, unfolding(crate::specs::Json::json_lines))]
fn push_lines<A: Allocator>(
    text: &mut Vec<u8, A>,
    objects: bool,
    reply: &[u8],
) -> Result<(), AllocError>
    ensures { OnOk result (text.new.items
        ≡ text.old.items
        ++ json_lines objects true (map without_terminator (lines_of reply.now))) }
{
    let mut first = true;
    for line in reply.lines() {
        text.extend_from_slice(separator(first))?;
        push_line(text, objects, line)?;
        first = false;
    }
    Ok(())
}

/// Appends where a line comes from.
#[tactic(auto, unfolding(crate::specs::Json::json_note))]
fn push_from<A: Allocator>(text: &mut Vec<u8, A>, note: &[u8]) -> Result<(), AllocError>
    ensures { OnOk result (text.new.items ≡ text.old.items ++ json_note note.now) }
{
    if note.is_empty() {
        return Ok(());
    }
    text.extend_from_slice(b",\"from\":")?;
    push_string(text, note)
}

/// The end of a reply's lines, and whether it is a refusal.
fn reply_end(refused: bool) -> &'static [u8]
    ensures { result.now ≡ (if refused
        then codes "],\"refused\":true" else codes "],\"refused\":false") }
{
    if refused {
        b"],\"refused\":true"
    } else {
        b"],\"refused\":false"
    }
}

/// Appends what comes after the line in an object.
#[tactic(auto, unfolding(crate::specs::Json::json_reply))]
fn push_reply<A: Allocator>(
    text: &mut Vec<u8, A>,
    answer: Answered,
    note: &[u8],
    reply: &[u8],
) -> Result<(), AllocError>
    ensures { OnOk result (text.new.items
        ≡ text.old.items ++ json_reply answer note.now reply.now) }
{
    text.extend_from_slice(b"\"reply\":[")?;
    push_lines(text, answer.has_objects, reply)?;
    text.extend_from_slice(reply_end(answer.is_refused))?;
    push_from(text, note)?;
    text.extend_from_slice(b"}\n")
}

/// Appends the line in an object.
fn push_typed<A: Allocator>(
    text: &mut Vec<u8, A>,
    front: &[u8],
    longer: bool,
) -> Result<(), AllocError>
    ensures { OnOk result (text.new.items ≡ text.old.items ++ json_typed front.now longer) }
{
    text.extend_from_slice(b"\"line\":\"")?;
    push_escaped(text, front)?;
    text.extend_from_slice(if longer { b" ..\"," } else { b"\"," })
}

/// Appends the object for a line of which this is the front.
#[tactic(auto, unfolding(crate::specs::Json::json_answer))]
pub(crate) fn push_answer<A: Allocator>(
    text: &mut Vec<u8, A>,
    front: &[u8],
    longer: bool,
    note: &[u8],
    answer: Answered,
    reply: &[u8],
) -> Result<(), AllocError>
    ensures { OnOk result (text.new.items
        ≡ text.old.items ++ json_answer front.now longer note.now answer reply.now) }
{
    text.extend_from_slice(b"{")?;
    push_typed(text, front, longer)?;
    push_reply(text, answer, note, reply)
}

/// Appends the object for a reply of the desk itself.
#[tactic(auto, unfolding(crate::specs::Json::json_own))]
pub(crate) fn push_own<A: Allocator>(
    text: &mut Vec<u8, A>,
    note: &[u8],
    refused: bool,
    reply: &[u8],
) -> Result<(), AllocError>
    ensures { OnOk result (text.new.items
        ≡ text.old.items ++ json_own note.now refused reply.now) }
{
    let answer = Answered {
        is_refused: refused,
        has_objects: false,
    };
    text.extend_from_slice(b"{")?;
    push_reply(text, answer, note, reply)
}

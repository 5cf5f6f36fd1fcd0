//! Scripts and files with each growth refused in turn: what was replied before remains whole, and nothing of the reply that is refused.

use super::files::{FILES, FIRST_PART, FileRow, run_part, write_between};
use super::streams::{Failing, Pieces};
use super::{FIRST_RUN, run_between};
use crate::{End, expect_eq, in_turn};
use lgp_lab::LabFault;
use lgp_limited::Limited;
use std::alloc::Global;

/// Commands, each of those that there are. Loading begins with the clock at 0, as in the worked example of a file that is run. Typed
/// digits are shifted into the accumulator, which the second order stores.
const COMMANDS: &[u8] = b"put 0007 00000004
dump
source
 org 0100
 word 00000004
 end
.
list
load
panel
turn 5
mount 12'
put 0000 00083900
put 0001 000j00j8
press manual
type 12
press normal
press clear
press bp32 up
press start
break 0001
watch 0050
run 9
drop 0
run 9
orders 9
words 0050 1
show 0000 2
printed
last
back 1
";

/// The reply to each of them.
static REPLIES: [&[u8]; 27] = [
    b"ok\n",
    b"dump 1\n0007 00000004\n",
    b"cells 1 start none\n",
    b"               org 0100\n0100 00000004  word 00000004\n               end\n",
    b"loaded 23\n",
    b"counter 6320 accumulator 80000000 register 80000000 status halted stop mode normal switches uuuuuu reader off tape 0 clock 15342\n",
    b"clock 15347\n",
    b"ok 3\n",
    b"ok\n",
    b"ok\n",
    b"live\n",
    b"live 2 dead 0\n",
    b"live\n",
    b"live\n",
    b"live\n",
    b"live\n",
    b"rule 0\n",
    b"rule 1\n",
    b"ran 1 rule 0\n",
    b"ok\n",
    b"ran 1 rule 0\n",
    b"orders 1 halted stop\n",
    b"0050 00000012\n",
    b"0000 p 5700\n0001 h 0050\n",
    b"printed 1 a\n",
    b"back 2 rule 0\n",
    b"clock 15347\n",
];

/// How many whole replies a text is; `None` where there is anything else.
fn replies_in(text: &[u8]) -> Option<usize> {
    let mut left = text;
    let mut replies: usize = 0;
    for reply in &REPLIES {
        match left.strip_prefix(*reply) {
            Some(rest) => left = rest,
            None => break,
        }
        replies = replies.saturating_add(1);
    }
    left.is_empty().then_some(replies)
}

/// How a call ended, where this was to be its answer at last, and where a front of its text is written, or the whole text.
fn ended(answer: Result<u64, LabFault>, wanted: u64, (is_front, is_whole): (bool, bool)) -> End {
    match answer {
        Err(LabFault::Memory) if is_front => End::Refused,
        Ok(number) if number == wanted && is_whole => End::Done,
        _ => End::Otherwise,
    }
}

/// How the script of all commands ends, and after how many whole replies.
fn script_end(limited: &Limited<Global>, global: Global) -> (End, usize) {
    let mut written = Vec::new(global);
    let (answer, has_read_failed, has_write_failed) = run_between(limited, COMMANDS, &mut written);
    let (is_front, replies) = match replies_in(&written) {
        Some(replies) => (!has_read_failed && !has_write_failed, replies),
        None => (false, 0),
    };
    let is_whole = is_front && replies == 27;
    (ended(answer, 0, (is_front, is_whole)), replies)
}

/// The same, where a refused command is noted.
fn noted_end(limited: &Limited<Global>, global: Global, refused: &mut [bool; 27]) -> End {
    let (end, replies) = script_end(limited, global);
    match refused.get_mut(replies) {
        Some(command) => *command = true,
        None => {}
    }
    end
}

/// Which commands are refused at least once before the script is done; `None` where it ends otherwise.
fn refusals(limited: &Limited<Global>, global: Global) -> Option<[bool; 27]> {
    let mut refused = [false; 27];
    in_turn(limited, || noted_end(limited, global, &mut refused))?;
    Some(refused)
}

#[test]
fn each_growth_of_each_command_is_refused(rt: HostRuntime) {
    let limited = Limited::new(rt.alloc());
    let refused = refusals(&limited, rt.alloc());
    expect_eq(&rt, (refused, limited.blocks_out()), (Some([true; 27]), 0));
}

/// How a call for a source ends, over a reader of small pieces and a writer that takes few bytes at once. Where it is refused,
/// nothing is written.
fn file_end(limited: &Limited<Global>, global: Global, row: &FileRow<'static>) -> End {
    let (call, source, text, status) = *row;
    let mut writer = Failing::after(global, usize::MAX, 5);
    let answer = write_between(call, limited, Pieces::whole(source, 7), &mut writer);
    let texts = (writer.taken().is_empty(), writer.taken() == text);
    ended(answer, status, texts)
}

#[test]
fn nothing_is_written_for_a_file_whose_growth_is_refused(rt: HostRuntime) {
    let (global, limited) = (rt.alloc(), Limited::new(rt.alloc()));
    for row in &FILES {
        let growths = in_turn(&limited, || file_end(&limited, global, row));
        let seen = (row.2, growths >= Some(1), limited.blocks_out());
        expect_eq(&rt, seen, (row.2, true, 0));
    }
}

/// Whether a text is some of the first lines that are written for a script with its name.
fn is_part(text: &[u8]) -> bool {
    FIRST_PART.starts_with(text) && (text.is_empty() || text.ends_with(b"\n"))
}

/// How a script of several ends, over such a reader and writer. Where it is refused, a part of its text is written.
fn part_end(limited: &Limited<Global>, global: Global) -> End {
    let mut writer = Failing::after(global, usize::MAX, 5);
    let script = Pieces::whole(FIRST_RUN, 7);
    let answer = run_part(limited, "first run", script, &mut writer);
    let texts = (is_part(writer.taken()), writer.taken() == FIRST_PART);
    ended(answer, 0, texts)
}

#[test]
fn a_script_of_several_is_refused_after_a_whole_reply(rt: HostRuntime) {
    let (global, limited) = (rt.alloc(), Limited::new(rt.alloc()));
    let growths = in_turn(&limited, || part_end(&limited, global));
    expect_eq(&rt, (growths > Some(9), limited.blocks_out()), (true, 0));
}

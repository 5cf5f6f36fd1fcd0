//! Scripts and their replies.

use super::streams::Pieces;
use super::{FIRST_RUN, FIRST_RUN_REPLIES, Row, is_done, run_between};
use crate::expect_eq;
use std::alloc::Global;
use std::io;
use std::io::Read;

/// Scripts that come in pieces. Others are in `texts/` and `examples/`, and the proved program answers those.
static ROWS: [Row<'static>; 18] = [
    (FIRST_RUN, FIRST_RUN_REPLIES, 0),
    // Orders that read a tape: one with a conditional stop, and one without, after which a key ends the input.
    (
        b"put 0000 00080000\nput 0001 00040000\nmount 12[16]3'\npress start\norders 2\npanel\n",
        b"ok\nok\nok 5\nlive\norders 2 going\ncounter 0002 accumulator 00000123 register 00040000 status going mode normal switches uuuuuu reader off tape 0 clock 1996\n",
        0,
    ),
    (
        b"put 0000 00080000\nput 0001 00040000\nmount 12[16]3\npress start\norders 9\npanel\ntype '\norders 1\n",
        b"ok\nok\nok 4\nlive\norders 2 waiting\ncounter 0002 accumulator 00000123 register 00040000 status waiting mode normal switches uuuuuu reader off tape 0 clock 1612\nlive 1 dead 0\norders 1 halted stop\n",
        0,
    ),
    // A load, and the words of the loader that it has changed.
    (
        b"source\n org 0100\n word 00000004\n end\n.\nload\npanel\nwords 0100 1\nwords 6309 1\nwords 6319 1\nwords 6321 1\n",
        b"cells 1 start none\nloaded 23\ncounter 6320 accumulator 80000000 register 80000000 status halted stop mode normal switches uuuuuu reader off tape 0 clock 15342\n0100 00000004\n6309 000k0104\n6319 80000000\n6321 00000000\n",
        0,
    ),
    // An order that prints, and back over it.
    (
        b"put 0000 00083900\npress start\norders 1\nprinted\nturn 1\nback 0\nback 1\nprinted\nback 1\n",
        b"ok\nlive\norders 1 going\nprinted 1 a\n? 3 AtWork\nclock 451\nclock 0\nprinted 0\n? 7 TooFar 0\n",
        2,
    ),
    (b"turn 5\n", b"clock 5\n", 0),
    // Rules that stop runs, and back to the orders that they hit.
    (
        b"put 0000 000100j8\nput 0001 000q00jj\nput 0002 000j00j8\nput 0003 000f0000\nput 0051 00000002\npress start\nbreak 0002\nrun 100\ndrop 0\nwatch 0050\nrun 100\nrun 100\nlast\nwords 0050 1\nlast\nlast\ndrop 1\n",
        b"ok\nok\nok\nok\nok\nlive\nrule 0\nran 2 rule 0\nok\nrule 0\nran 1 rule 0\nran 4 rule 0\nback 1 rule 0\n0050 00000002\nback 4 rule 0\n? 8 NoHit 2\n? 6 NoRule\n",
        2,
    ),
    // Each kind of fault once, but for those of bytes and of the drum's end.
    (
        b"source\n org 6304\n b 0100\na org 0100\n z\n org 0100\n z\n q 0000\n b\n b none\n b 6363+1\na z\n9a z\n z 0 0\n word 00000001\n end\n z\n.\nload\n",
        b"? 9 Faults\nline 2 InLoader\nline 6 PlaceTaken\nline 7 UnknownOrder\nline 8 MissingOperand\nline 9 UnknownName\nline 10 OutOfRange\nline 11 LabelTwice\nline 12 BadLabel\nline 13 Extra\nline 14 BadOperand\nline 16 AfterEnd\n? 10 NoImage\n",
        2,
    ),
    // Lines that are refused, and a button that is dead.
    (
        b"mount 12A\nput 0000 000f0000\npress start\npress start\nput 0000 00000001\nput 0000 00000002\n",
        b"? 12 BadSign 2\nok\nlive\ndead\n? 1 Form\n? 2 Moving\n",
        3,
    ),
    (
        b"mount [6\nmount [64]\n",
        b"? 12 BadSign 0\n? 12 BadSign 0\n",
        2,
    ),
    // Words as orders, and dumps.
    (
        b"put 6308 800g3w20\nshow 6308 1\ndump\n",
        b"ok\n6308 -t 6308\ndump 1\n6308 800g3w20\n",
        0,
    ),
    (
        b"dump\nput 6363 80000000\nput 0100 00000004\nshow 6362 2\ndump\n",
        b"dump 0\nok\nok\n6362 z 0000\n6363 word 80000000\ndump 2\n0100 00000004\n6363 80000000\n",
        0,
    ),
    // An order that was performed is put anew.
    (
        b"put 0000 000f0000\npress start\norders 1\npress manual\nput 0000 00000000\npress normal\npress start\norders 1\npanel\n",
        b"ok\nlive\norders 1 going\nlive\nok\nlive\nlive\norders 1 halted stop\ncounter 0001 accumulator 00000000 register 00000000 status halted stop mode normal switches uuuuuu reader off tape 0 clock 131\n",
        0,
    ),
    // Back over a word put by hand and a mounted tape.
    (
        b"put 0000 000f0000\npress start\norders 2\npress manual\nput 0100 00000004\nmount a\npress normal\npress start\norders 1\nback 2\npanel\nwords 0100 1\nback 1\nback 1\n",
        b"ok\nlive\norders 2 going\nlive\nok\nok 1\nlive\nlive\norders 1 going\nclock 67\ncounter 0000 accumulator 00000000 register 000f0000 status going mode normal switches uuuuuu reader off tape 0 clock 67\n0100 00000000\nclock 0\n? 7 TooFar 0\n",
        1,
    ),
    // A line that is too long.
    (&LONG_LINE, b"? 11 TooLong\n", 1),
    (b"turn 5\r\r\nturn 5\rturn 5\n", b"? 1 Form\n? 1 Form\n", 2),
    (b"turn 5\r", b"? 1 Form\n", 1),
    // Two points are no point, and a carriage return before the line feed is not the line's.
    (
        b"source\r\n..\r\n end\r\n.\r\nturn 1\n",
        b"? 9 Faults\nline 1 BadLabel\nclock 1\n",
        1,
    ),
];

/// A line of a byte more than a line may have.
const LONG_LINE: [u8; 4097] = [b'p'; 4097];

/// Whether a script has these replies, and as many of them begin with a question mark.
fn has_replies<R: Read + Drop>(alloc: Global, script: R, replies: &[u8], faults: u64) -> bool {
    let mut written = Vec::new(alloc);
    let ended = run_between(alloc, script, &mut written);
    let (answer, has_read_failed, has_write_failed) = ended;
    let is_whole = !has_read_failed && !has_write_failed;
    is_done(answer, faults) && is_whole && written.as_slice() == replies
}

/// Whether a script is answered as its row says, where it comes in pieces of at most a given number of bytes.
fn is_answered_in_pieces(alloc: Global, row: &Row<'static>, most: usize) -> bool {
    let (script, replies, faults) = *row;
    has_replies(alloc, Pieces::whole(script, most), replies, faults)
}

/// The same in pieces of 1, of 7 and of 5,000 bytes.
fn is_answered_in_all_pieces(alloc: Global, row: &Row<'static>) -> bool {
    is_answered_in_pieces(alloc, row, 1)
        && is_answered_in_pieces(alloc, row, 7)
        && is_answered_in_pieces(alloc, row, 5000)
}

#[test]
fn scripts_are_answered_in_pieces_of_any_length(rt: HostRuntime) {
    for row in &ROWS {
        let seen = (row.1, is_answered_in_all_pieces(rt.alloc(), row));
        expect_eq(&rt, seen, (row.1, true));
    }
}

/// Gives one text and then another.
#[derive(Drop)]
struct Joined {
    first: Pieces,
    second: Pieces,
}

impl Read for Joined {
    fn read(&mut self, buffer: &mut [u8]) -> io::Result<usize> {
        let count = self.first.read(buffer)?;
        if count > 0 {
            return Ok(count);
        }
        self.second.read(buffer)
    }
}

/// Whether a line that is too long is refused and the next one answered, where they come in pieces of at most a given number of bytes.
fn is_next_answered(alloc: Global, most: usize) -> bool {
    let script = Joined {
        first: Pieces::whole(&LONG_LINE, most),
        second: Pieces::whole(b"\nturn 5\n", most),
    };
    has_replies(alloc, script, b"? 11 TooLong\nclock 5\n", 1)
}

#[test]
fn the_line_after_one_that_is_too_long_is_answered_in_pieces_of_any_length(rt: HostRuntime) {
    let answered = [
        is_next_answered(rt.alloc(), 1),
        is_next_answered(rt.alloc(), 7),
        is_next_answered(rt.alloc(), 5000),
    ];
    expect_eq(&rt, answered, [true; 3]);
}

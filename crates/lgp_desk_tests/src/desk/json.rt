//! Replies as objects of JSON, an object on a line for each line that is typed.

use super::{Row, rows_answered, run};
use crate::{expect_eq, is_done};
use lgp_desk::Manner;
use std::alloc::Global;

/// Lines, and what is written for each of them.
static ANSWERED: [Row; 12] = [
    (
        Manner::Json,
        b"put 0000 = 1\n",
        b"{\"line\":\"put 0000 = 1\",\"reply\":[\"ok\"],\"refused\":false}\n",
        false,
    ),
    (
        Manner::Json,
        b"; \"a\\b\t\x7f\xc3\xbc\x1f~\n",
        b"{\"line\":\"; \\\"a\\\\b\\u0009\\u007f\\u00c3\\u00bc\\u001f~\",\"reply\":[],\"refused\":false}\n",
        false,
    ),
    (
        Manner::Json,
        b"live\n",
        b"{\"line\":\"live\",\"reply\":[\"live normal oneop manual start clear fill\",\"way start\"],\"refused\":false}\n",
        false,
    ),
    (
        Manner::Json,
        b"live now\n",
        b"{\"line\":\"live now\",\"reply\":[\"? 1 Form: live\"],\"refused\":true}\n",
        true,
    ),
    // A record is an object; a line that asks for one by itself has the same.
    (
        Manner::Json,
        b"trace-data 1\nprofile-data 0\n",
        b"{\"line\":\"trace-data 1\",\"reply\":[{\"ran\":\"0 rest\",\"state\":\"the operator halted the machine, or has not started it: press start to continue\"}],\"refused\":false}\n\
        {\"line\":\"profile-data 0\",\"reply\":[{\"orders\":0,\"times\":0,\"turns\":\"0.0\",\"find\":0,\"take\":0,\"seek\":0,\"act\":0,\"elsewhere\":0},{\"ran\":\"0 rest\",\"state\":\"the operator halted the machine, or has not started it: press start to continue\"}],\"refused\":false}\n",
        false,
    ),
    (
        Manner::Json,
        b"json cost 0000\njson panel\n",
        b"{\"line\":\"json cost 0000\",\"reply\":[{\"address\":\"0000\",\"label\":null,\"order\":\"z 0000\",\"find\":64,\"take\":1,\"seek\":1,\"act\":1,\"sum\":67,\"next\":\"0001\",\"next-label\":null,\"next-find\":6}],\"refused\":false}\n\
        {\"line\":\"json panel\",\"reply\":[\"? 1 Form: json LINE, where LINE is one for programs, such as state-data\"],\"refused\":true}\n",
        true,
    ),
    (
        Manner::Json,
        b"words 0000 2\n",
        b"{\"line\":\"words 0000 2\",\"reply\":[\"0000 00000000\",\"0001 00000000\"],\"refused\":false}\n",
        false,
    ),
    (
        Manner::Json,
        b"do two lines\n",
        b"{\"line\":\"put 0000 = 1\",\"reply\":[\"ok\"],\"refused\":false,\"from\":\"line 1 of two lines\"}\n\
        {\"line\":\"words 0000 1\",\"reply\":[\"0000 00000002\"],\"refused\":false,\"from\":\"line 2 of two lines\"}\n",
        false,
    ),
    (
        Manner::Json,
        b"do none\nquit\nlive\n",
        b"{\"reply\":[\"? 13 File none: it cannot be opened\"],\"refused\":true}\n",
        true,
    ),
    (
        Manner::Json,
        b"save kept\nrestore drum\n",
        b"{\"reply\":[\"saved kept\"],\"refused\":false}\n\
        {\"line\":\"restore drum\",\"reply\":[\"restored 2\"],\"refused\":false,\"from\":\"drum\"}\n",
        false,
    ),
    (
        Manner::Json,
        b"source\n foo",
        b"{\"line\":\"source\",\"reply\":[],\"refused\":false}\n\
        {\"line\":\" foo\",\"reply\":[],\"refused\":false}\n\
        {\"reply\":[\"? 9 Faults\",\"line 1 UnknownOrder\",\"line 2 NoEnd\"],\"refused\":true}\n",
        true,
    ),
    // A transcript that begins with a refused line is no refusal.
    (
        Manner::Json,
        b"? foo\ntranscript\n",
        b"{\"line\":\"? foo\",\"reply\":[\"? 1 Form: there is no such command; help lists them all\"],\"refused\":true}\n\
        {\"line\":\"transcript\",\"reply\":[\"? foo\"],\"refused\":false}\n",
        true,
    ),
];

/// A line that is longer than a line may be, and the front of it that is kept.
const LONGER: [u8; 4097] = [b';'; 4097];

#[test]
fn each_line_has_its_object(rt: HostRuntime) {
    expect_eq(&rt, rows_answered(rt.alloc(), &ANSWERED), 12);
}

/// Whether the object of a longer line has its front and two points, and ends as that of a line that is passed over.
fn has_front(alloc: Global) -> bool {
    let mut written = Vec::new(alloc);
    let answer = run(alloc, Manner::Json, &LONGER, &mut written);
    is_done(answer, false)
        && written.starts_with(b"{\"line\":\";;;;")
        && written.ends_with(b";;;; ..\",\"reply\":[],\"refused\":false}\n")
        && written.len() == 4138
}

#[test]
fn a_longer_line_is_cut(rt: HostRuntime) {
    expect_eq(&rt, has_front(rt.alloc()), true);
}

//! The replies of the script language.

use crate::refusal::Refusal;
use lgp_command::Span;
use lgp_debugger::Ran;
use lgp_table::Status;

/// What a command is replied. What is long is named only: it is read off the laboratory when the reply is printed.
#[derive(Clone, Copy)]
pub enum Reply {
    /// It is done.
    Done,
    /// A tape of a given number of codes is mounted.
    Mounted(u64),
    /// The button or switch was live, and has acted.
    Live,
    /// The button or switch was dead.
    Dead,
    /// How many keys were live, and how many dead.
    Struck(u64, u64),
    /// The clock after the command.
    Clock(u64),
    /// How many orders were performed, and the status after them.
    Orders(u64, Status),
    /// The panel.
    Panel,
    /// Words of the drum by their digits.
    Words(Span),
    /// Words of the drum by their disassembly.
    Show(Span),
    /// What is printed.
    Printed,
    /// All words that are not zero.
    Dump,
    /// A source is open; nothing is said.
    Opened,
    /// The listing of the last source.
    List,
    /// How many orders the loader has performed.
    Loaded(u64),
    /// A rule has this number.
    Rule(u8),
    /// A run came to this.
    Ran(Ran),
    /// How many orders back the latest hit lay, and the number of its rule.
    Hit(u64, u8),
    /// The command is refused.
    Refused(Refusal),
}

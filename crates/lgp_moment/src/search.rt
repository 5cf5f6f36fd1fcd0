//! The orders of a session that meet a condition: they are performed again, and looked at one after another.

ghost use Rattle.std.specs.Prelude.{◌≡◌, List, ℕ, IfOk, OnOk, Some, false};
ghost use Rattle.std.specs.Str.Lines.{lines};
ghost use Rattle.lgp_debugger.specs.Watching.{rules_in_force};
ghost use Rattle.lgp_stream.specs.KeptLine.{kept_of};
ghost use Rattle.lgp_script.specs.LabState.{opening_state};
ghost use Rattle.lgp_when.specs.Meeting.{IsMeeting};
ghost use Rattle.lgp_moment.specs.Moment.{command_in};
ghost use Rattle.lgp_moment.specs.MomentInside.{run_command};
ghost use Rattle.lgp_moment.specs.Search.{IsSought, chosen};
ghost use Rattle.lgp_moment.specs.SearchInside.{IsSearchedLine, IsSeen};

use crate::moment::command_in;
use lgp_command::Command;
use lgp_debugger::{Debugger, Quiet, WatchFault, Watcher};
use lgp_history::History;
use lgp_script::Laboratory;
use lgp_stream::{LineBytes, Recorder, first_line};
use lgp_when::{Condition, Meeting};
use std::alloc::{AllocError, Allocator};

/// Which of the orders that meet a condition is sought.
#[derive(Clone, Copy, Debug, PartialEq, Eq)]
pub enum Which {
    First,
    Last,
}

/// The number of the order that was sought, if there is one, and how many orders there are.
#[derive(Clone, Copy, Debug, PartialEq, Eq)]
pub struct Sought {
    pub order: Option<u64>,
    pub orders: u64,
}

/// What is sought, how many orders were looked at, and the number of the one that was found among them.
#[derive(Clone, Copy)]
pub(crate) struct Search {
    pub(crate) which: Which,
    pub(crate) meeting: Meeting,
    pub(crate) orders: u64,
    pub(crate) found: Option<u64>,
}

/// What is found with one order more.
fn chosen(which: Which, is_met: bool, order: u64, found: Option<u64>) -> Option<u64>
    ensures { result ≡ chosen which is_met order found }
{
    match (which, is_met, found) {
        (Which::First, true, None) | (Which::Last, true, _) => Some(order),
        _ => found,
    }
}

/// Looks at each order of a run.
#[derive(Drop)]
struct Looking {
    /// What has each order performed.
    quiet: Quiet,
}

impl<H: History<A>, A: Allocator> Watcher<H, A, Search> for Looking {
    ghost in_force = { λ looking rules. rules_in_force looking.quiet.by_rules rules };

    ghost ready = { λ _ d search. IsMeeting search.meeting d.state };

    ghost Sees = { λ _ d before after. IsSeen d.state before after };

    ghost never_refused = { false };

    #[inline(always)]
    fn order(
        &mut self,
        debugger: &mut Debugger<H, A>,
        search: &mut Search,
    ) -> Result<Option<u8>, WatchFault> {
        let met = match search.meeting.order(debugger, self.quiet) {
            Ok(met) => met,
            Err(fault) => return Err(WatchFault::Refused(fault)),
        };
        let Some(orders) = search.orders.checked_add(1) else {
            return Err(WatchFault::Unseen);
        };
        search.found = chosen(search.which, met.is_met, search.orders, search.found);
        search.orders = orders;
        Ok(met.stop)
    }
}

/// Performs the orders that a line asks for, and looks at each of them.
fn search_run<A: Allocator + Copy>(
    session: &mut Recorder<Laboratory<A>, A>,
    by_rules: bool,
    limit: u64,
    search: &mut Search,
) -> Result<(), AllocError>
    ensures { (text : List ℕ) → command_in session.old.state (kept_of text)
        ≡ Some (run_command by_rules limit)
        → OnOk result (IsSearchedLine session.old.state (kept_of text) session.new.state
        search.old search.new) }
{
    let laboratory = session.answers_mut();
    search.meeting = Meeting::new(search.meeting.condition(), laboratory.debugger().machine());
    let mut looking = Looking {
        quiet: Quiet { by_rules },
    };
    laboratory.run_watched(limit, &mut looking, search)?;
    Ok(())
}

/// Takes a line of a session again, and looks at each of its orders.
fn search_line<A: Allocator + Copy>(
    alloc: A,
    session: &mut Recorder<Laboratory<A>, A>,
    line: &LineBytes,
    search: &mut Search,
) -> Result<(), AllocError>
    ensures { (text : List ℕ) → line.now ≡ kept_of text
        → OnOk result (IsSearchedLine session.old.state line.now session.new.state
        search.old search.new) }
{
    let asked = command_in(session.answers(), line);
    match &asked {
        Some(Command::Run(limit)) => search_run(session, true, limit.get(), search),
        Some(Command::Orders(limit)) => search_run(session, false, limit.get(), search),
        _ => {
            let mut reply = Vec::new(alloc);
            session.answer_kept(line, &mut reply)
        }
    }
}

/// Takes lines of a session again, and looks at each of their orders.
fn search_lines<A: Allocator + Copy>(
    alloc: A,
    session: &mut Recorder<Laboratory<A>, A>,
    transcript: &[u8],
    which: Which,
    condition: Condition,
) -> Result<Sought, AllocError>
    ensures { IfOk result (λ sought. IsSought which condition session.old.state
        (lines transcript.now) sought) }
{
    let mut search = Search {
        which,
        meeting: Meeting::new(condition, session.answers().debugger().machine()),
        orders: 0,
        found: None,
    };
    let mut rest = transcript;
    while !rest.is_empty() {
        let first = first_line(rest);
        search_line(alloc, session, &first.line, &mut search)?;
        rest = first.rest;
    }
    Ok(Sought {
        order: search.found,
        orders: search.orders,
    })
}

/// Looks for the first or the last order of a session that meets a condition, by the session's transcript. Orders are counted from 0.
/// More of them than 64 bits count are refused as memory is.
pub fn order_sought<A: Allocator + Copy>(
    alloc: A,
    transcript: &[u8],
    which: Which,
    condition: Condition,
) -> Result<Sought, AllocError>
    ensures { IfOk result (λ sought. IsSought which condition opening_state
        (lines transcript.now) sought) }
{
    let laboratory = Laboratory::new(alloc)?;
    let mut session = Recorder::new(alloc, laboratory);
    search_lines(alloc, &mut session, transcript, which, condition)
}

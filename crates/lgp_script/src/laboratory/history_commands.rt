//! Rules and the way back.

ghost use Rattle.std.specs.Prelude.{◌≡◌, ◌++◌, IfOk, OnOk, not};
ghost use Rattle.lgp_machine.specs.Answers.{passes_clock_end};
ghost use Rattle.lgp_debugger.specs.Debugging.{order_origins};
ghost use Rattle.lgp_debugger.specs.Run.{IsRun};
ghost use Rattle.lgp_debugger.specs.Watching.{AreSeen};
ghost use Rattle.lgp_script.specs.HistoryCommands.{orders_run, replied_to_back, replied_to_drop, replied_to_last, replied_to_rule, replied_to_run};
ghost use Rattle.lgp_script.specs.LabState.{labels_of};
ghost use Rattle.lgp_script.specs.LaboratoryInside.{goes_past};
ghost use Rattle.lgp_script.specs.Reply.{IsReplied};
ghost use Rattle.lgp_script.specs.RunPart.{IsRunPart, IsWatched, rules_if};
ghost use Rattle.lgp_script.specs.UntilReply.{IsRepliedUntil};

use super::{Laboratory, labels_in};
use crate::refusal::Refusal;
use crate::reply::Reply;
use crate::run_part::RunPart;
use crate::teller::Teller;
use crate::until_reply::UntilReply;
use lgp_debugger::{HitFault, Ran, Reason, RuleFault, RunFault, RunRefusal, Watcher, passes_end};
use lgp_history::{BackFault, Records, Rule};
use lgp_when::{RanUntil, Until, run_until};
use std::alloc::{AllocError, Allocator};

/// How many rules there may be.
const RULE_LIMIT: u64 = 64;

impl<A: Allocator + Copy> Laboratory<A> {
    /// Adds a rule.
    #[tactic(auto, unfolding(crate::specs::HistoryCommands::replied_to_rule))]
    pub(super) fn add_rule(&mut self, rule: Rule) -> Reply
        ensures { IsReplied result self.new (replied_to_rule self.old rule) }
    {
        match self.debugger.add_rule(rule) {
            Ok(number) => Reply::Rule(number),
            Err(RuleFault::Full) => Reply::Refused(Refusal::Full),
        }
    }

    /// Takes a rule out.
    #[tactic(auto, unfolding(crate::specs::HistoryCommands::replied_to_drop))]
    pub(super) fn drop_rule(&mut self, number: u64) -> Reply
        ensures { IsReplied result self.new (replied_to_drop self.old number) }
    {
        if number >= RULE_LIMIT {
            return Reply::Refused(Refusal::NoRule);
        }
        match self.debugger.remove_rule(number as u8) {
            Some(_) => Reply::Done,
            None => Reply::Refused(Refusal::NoRule),
        }
    }

    /// Performs orders until a rule stops them.
    #[tactic(auto, unfolding(crate::specs::HistoryCommands::replied_to_run))]
    pub(super) fn run(&mut self, limit: u64) -> Result<Reply, AllocError>
        ensures { IfOk result (λ reply. IsReplied reply self.new (replied_to_run self.old limit)) }
    {
        match self.debugger.run(limit) {
            Ok(ran) => Ok(Reply::Ran(ran)),
            Err(broken) => broken_off(&broken),
        }
    }

    /// Does what the command `run` does by a teller, which appends what it has to tell. A refused growth leaves open what
    /// was done.
    #[tactic(auto, unfolding(crate::specs::HistoryCommands::replied_to_run, crate::specs::HistoryCommands::orders_run))]
    pub fn run_told<T: Teller>(
        &mut self,
        teller: &T,
        limit: u64,
        text: &mut Vec<u8, A>,
    ) -> Result<Reply, AllocError>
        ensures reply { IfOk result (λ reply.
            IsReplied reply self.new (replied_to_run self.old limit)) }
        ensures text { OnOk result (text.new.items ≡ text.old.items
            ++ T.reported teller.now (labels_of self.old.source) self.old.debugger.state
            (order_origins self.old.debugger) (orders_run limit self.old.debugger)) }
    {
        let names = labels_in(&self.program);
        match teller.run(self.alloc, &mut self.debugger, limit, names, text) {
            Ok(ran) => Ok(Reply::Ran(ran)),
            Err(broken) => broken_off(&broken),
        }
    }

    /// Does what the command `run` does, at most until its orders have met a condition.
    #[tactic(auto, unfolding(crate::specs::HistoryCommands::replied_to_run, crate::specs::HistoryCommands::orders_run), using(crate::proofs::RunAgain::leaves_same))]
    pub fn run_until(&mut self, until: &Until, limit: u64) -> Result<UntilReply, AllocError>
        ensures { IfOk result (λ answer. IsRepliedUntil until.now limit self.old self.new answer) }
    {
        match run_until(&mut self.debugger, until, limit) {
            Ok(RanUntil { ran, is_met }) => Ok(UntilReply {
                reply: Reply::Ran(ran),
                orders: ran.orders,
                is_met,
            }),
            Err(broken) => Ok(UntilReply {
                reply: broken_off(&broken)?,
                orders: broken.orders,
                is_met: false,
            }),
        }
    }

    /// Performs the orders of a run, which the rules stop or nothing does.
    fn run_by(&mut self, by_rules: bool, limit: u64) -> Result<Ran, RunFault>
        ensures run { IsRun (rules_if by_rules self.old) limit self.old.debugger
            self.new.debugger result }
        ensures same { self.new ≡ record self.old { debugger = self.new.debugger } }
    {
        if by_rules {
            self.debugger.run(limit)
        } else {
            self.debugger.run_freely(limit)
        }
    }

    /// Performs the orders of a run, and has each of them watched. Returns how many they are. A refused growth leaves open how many were
    /// performed.
    pub fn run_watched<K, W: Watcher<Records<A>, A, K>>(
        &mut self,
        limit: u64,
        watcher: &mut W,
        kept: &mut K,
    ) -> Result<u64, AllocError>
        requires ready { W.ready watcher.old self.old.debugger kept.old }
        ensures { IfOk result (λ orders. IsWatched
            (W.in_force watcher.old self.old.debugger.rules) limit self.old self.new orders
            (AreSeen (W.Sees watcher.old) self.old.debugger kept.old orders kept.new)) }
    {
        match self.debugger.run_watched(limit, watcher, kept) {
            Ok(ran) => Ok(ran.orders),
            Err(broken) => {
                broken_off(&broken)?;
                Ok(broken.orders)
            }
        }
    }

    /// Whether the clock's end is not before the end of the next order.
    fn has_time(&self) -> bool
        ensures { result ≡ not (passes_clock_end self.now.debugger.state) }
    {
        let Some(ahead) = self.debugger.machine().ahead() else {
            unreachable!()
        };
        !passes_end(self.debugger.look().clock, ahead.cost)
    }

    /// Whether a run of `limit` orders goes on after one of `most` orders that came to this.
    fn goes_past(&self, ran: &Ran, limit: u64, most: u64) -> bool
        ensures { result ≡ goes_past limit most ran.now.reason self.now.debugger.state }
    {
        most < limit && matches!(ran.reason, Reason::Limit) && self.has_time()
    }

    /// Performs the first orders of a run, at most `most` of them. The run is one of at most `limit` orders, which the rules stop or
    /// nothing does. A refused growth leaves open how many were performed.
    pub fn run_part(&mut self, by_rules: bool, limit: u64, most: u64) -> Result<RunPart, AllocError>
        ensures { IfOk result (λ part. IsRunPart by_rules limit most self.old self.new part) }
    {
        match self.run_by(by_rules, limit.min(most)) {
            Ok(ran) => Ok(RunPart {
                orders: ran.orders,
                goes_on: self.goes_past(&ran, limit, most),
            }),
            Err(broken) => {
                broken_off(&broken)?;
                Ok(RunPart {
                    orders: broken.orders,
                    goes_on: false,
                })
            }
        }
    }

    /// Goes a given number of orders back.
    #[tactic(auto, unfolding(crate::specs::HistoryCommands::replied_to_back))]
    pub(super) fn back(&mut self, orders: u64) -> Result<Reply, AllocError>
        ensures { IfOk result (λ reply.
            IsReplied reply self.new (replied_to_back self.old orders)) }
    {
        let kept = self.debugger.orders_kept();
        if kept < orders {
            return Ok(Reply::Refused(Refusal::TooFar(kept)));
        }
        match self.debugger.back(orders) {
            Ok(()) => Ok(Reply::Clock(self.debugger.look().clock)),
            Err(BackFault::TooFar(_)) => unreachable!(),
            Err(BackFault::Memory) => Err(AllocError),
        }
    }

    /// Goes back to the latest order that a rule hits.
    #[tactic(auto, unfolding(crate::specs::HistoryCommands::replied_to_last))]
    pub(super) fn last(&mut self) -> Result<Reply, AllocError>
        ensures { IfOk result (λ reply. IsReplied reply self.new (replied_to_last self.old)) }
    {
        match self.debugger.last_hit() {
            Ok((orders, rule)) => Ok(Reply::Hit(orders, rule)),
            Err(HitFault::NoHit(kept)) => Ok(Reply::Refused(Refusal::NoHit(kept))),
            Err(HitFault::Memory) => Err(AllocError),
        }
    }
}

/// The refusal of a run that the clock's end broke off; where it was memory, that is a refused growth.
pub(super) fn broken_off(broken: &RunFault) -> Result<Reply, AllocError>
    ensures reply { IfOk result (λ reply. reply ≡ Reply.Refused Refusal.ClockEnd) }
    ensures cause { OnOk result (broken.now.fault ≡ RunRefusal.ClockEnd) }
{
    match broken.fault {
        RunRefusal::ClockEnd => Ok(Reply::Refused(Refusal::ClockEnd)),
        RunRefusal::Memory => Err(AllocError),
    }
}

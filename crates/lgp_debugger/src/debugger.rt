//! The debugger: a machine with its history and its rules, its steps, its runs and its way back.

ghost use Rattle.std.specs.Prelude.{◌≡◌, ◌≢◌, ◌==◌, ◌+◌, ◌<◌, ◌≤◌, ◌↔◌, ◌++◌, ◌∷◌, ℕ, [], length, map, remove, slice_get, vec_len, false, None, Some, Err, Ok, IfErr, IfOk, IsTrue, OnErr, OnOk, if◌then◌else◌};
ghost use Rattle.lgp_table.specs.Activity.{cost, print_of};
ghost use Rattle.lgp_table.specs.Console.{is_at_rest, is_live};
ghost use Rattle.lgp_table.specs.Interleaving.{at_boundary};
ghost use Rattle.lgp_machine.specs.Answers.{clock_end};
ghost use Rattle.lgp_machine.specs.Look.{look_of};
ghost use Rattle.lgp_history.specs.Step.{Idle, Mount, Perform, Press, Put};
ghost use Rattle.lgp_history.specs.Hits.{last_hit};
ghost use Rattle.lgp_history.specs.Origins.{latest_change};
ghost use Rattle.lgp_history.specs.Steps.{Leads, orders_in};
ghost use Rattle.lgp_flexo.specs.TapeText.{tape_limit};
ghost use Rattle.lgp_debugger.specs.WatchInside.{watch_of};
ghost use Rattle.lgp_debugger.specs.Debugging.{after_back, after_step, rule_limit};
ghost use Rattle.lgp_debugger.specs.Run.{IsOrderOfRun, IsRun, orders_of};
ghost use Rattle.lgp_debugger.specs.Watching.{AreSeen, IsWatchedRun, rules_in_force};
ghost use Rattle.lgp_loader.specs.BlockLoading.{longest_load};
ghost use Rattle.lgp_loader.specs.LoadedOver.{IsLoadedOver};
ghost use Rattle.lgp_loader.specs.Loading.{loaded, loading_cost, loading_stopped};
ghost use Rattle.std.specs.Result.{IsErrAnd};

use crate::fault::{HitFault, IdleFault, Ran, Reason, RuleFault, RunFault, RunRefusal, StepFault};
use crate::watch::{Watch, first_stop_now, watch_of};
use crate::watcher::{Quiet, WatchFault, Watcher};
use arrayvec::ArrayVec;
use lgp_assembler::Image;
use lgp_flexo::{Code, TAPE_LIMIT};
use lgp_history::{BackFault, History, Origin, Origins, Rule, Step, Tape};
use lgp_loader::{LoadFault, load};
use lgp_machine::{CLOCK_END, Look, Machine, MountFault, PutFault};
use lgp_phases::Outcome;
use lgp_table::{Action, Status};
use lgp_word::{Address, Word};
use std::alloc::{AllocError, Allocator, Global};
use std::marker::Model;

/// How many rules there may be.
const RULE_LIMIT: usize = 64;

/// No order takes more word times.
const LONGEST_ORDER: u64 = 1 << 32;

/// Whether a given number of word times from a clock on would pass the clock's end.
pub fn passes_end(clock: u64, times: u64) -> bool
    ensures { IsTrue result ↔ (clock_end < clock + times) }
{
    match clock.checked_add(times) {
        Some(end) => end > CLOCK_END,
        None => true,
    }
}

/// A machine that is always at a boundary, with its latest steps and with rules. Clauses see its state, the kept steps, how many
/// are kept at most, and the rules.
pub struct Debugger<H: History<A>, A: Allocator = Global> {
    machine: Machine<A>,
    history: H,
    rules: ArrayVec<Rule, RULE_LIMIT>,
}

// Written out: a derived drop is copied to each place where one is dropped.
impl<H: History<A>, A: Allocator> Drop for Debugger<H, A> {
    fn drop(self) {
        let Debugger {
            machine: _,
            history: _,
            rules: _,
        } = self;
    }
}

impl<H: History<A>, A: Allocator> Model for Debugger<H, A> {
    ghost use Rattle.lgp_table.specs.Interleaving.{at_boundary};
    ghost use Rattle.lgp_history.specs.Steps.{Leads};
    ghost use Rattle.lgp_debugger.specs.Debugging.{Debugging};
    ghost use Rattle.std.specs.Prelude.{◌≡◌};

    ghost Value = { Debugging };

    ghost view = { λ d. record {
      state = d.machine.state;
      steps = H.steps d.history d.machine.state;
      capacity = H.capacity d.history;
      rules = d.rules.items;
    } };

    ghost invariant = { λ d. (d.machine ≡ at_boundary d.machine.state)
        × Leads (H.steps d.history d.machine.state) d.machine.state };
}

impl<H: History<A>, A: Allocator> Debugger<H, A> {
    /// A debugger of a machine at a boundary, with no step kept and no rule.
    pub fn new(machine: Machine<A>, history: H) -> Debugger<H, A>
        requires { machine ≡ at_boundary machine.state }
        ensures { result ≡ record {
          state = machine.state;
          steps = [];
          capacity = H.capacity history;
          rules = [];
        } }
    {
        let mut history = history;
        history.clear();
        Debugger {
            machine,
            history,
            rules: ArrayVec::new(),
        }
    }

    /// One order: the activity that begins here.
    #[inline(always)]
    pub fn step(&mut self) -> Result<Outcome, StepFault>
        ensures performed { OnOk result (self.new ≡ after_step self.old Perform) }
        ensures cost { IfOk result (λ outcome. outcome.cost ≡ cost self.old.state) }
        ensures status { IfOk result (λ outcome.
            outcome.status ≡ self.new.state.core.panel.status) }
        ensures printed { IfOk result (λ outcome.
            outcome.printed ≡ print_of self.old.state.core) }
        ensures at_rest { (result ≡ Err StepFault.AtRest)
            ↔ IsTrue (is_at_rest self.old.state.core.panel.status) }
        ensures clock_end { (result ≡ Err StepFault.ClockEnd)
            ↔ ((is_at_rest self.old.state.core.panel.status ≡ false)
            × (clock_end < self.old.state.clock + cost self.old.state)) }
        ensures unchanged { OnErr result (self.new ≡ self.old) }
    {
        if self.goes_freely() {
            return self.perform();
        }
        self.check_order()?;
        self.perform()
    }

    /// Whether the machine goes, and no order that begins here can pass the clock's end, of which none takes 2^32 word times.
    #[inline(always)]
    #[tactic(auto, using(lgp_phases::proofs::Bounds::cost_at_short, crate::proofs::ClockLemmas::left_few))]
    fn goes_freely(&self) -> bool
        ensures at_work { IsTrue result → is_at_rest self.now.state.core.panel.status ≡ false }
        ensures within { IsTrue result
            → self.now.state.clock + cost self.now.state ≤ clock_end }
    {
        let Some(_) = self.machine.tape_passed() else {
            unreachable!()
        };
        let look = self.look();
        matches!(look.status, Status::Going) && look.clock <= CLOCK_END - LONGEST_ORDER
    }

    /// Whether the order that begins here can be performed, and why not.
    #[cold]
    #[inline(never)]
    fn check_order(&self) -> Result<(), StepFault>
        ensures at_work { OnOk result (is_at_rest self.now.state.core.panel.status ≡ false) }
        ensures within { OnOk result (self.now.state.clock + cost self.now.state ≤ clock_end) }
        ensures at_rest { (result ≡ Err StepFault.AtRest)
            ↔ IsTrue (is_at_rest self.now.state.core.panel.status) }
        ensures clock_end { (result ≡ Err StepFault.ClockEnd)
            ↔ ((is_at_rest self.now.state.core.panel.status ≡ false)
            × (clock_end < self.now.state.clock + cost self.now.state)) }
    {
        let look = self.look();
        if look.status.is_at_rest() {
            return Err(StepFault::AtRest);
        }
        let Some(ahead) = self.machine.ahead() else {
            unreachable!()
        };
        if passes_end(look.clock, ahead.cost) {
            return Err(StepFault::ClockEnd);
        }
        Ok(())
    }

    /// The activity that begins here, which can be performed.
    #[inline(always)]
    fn perform(&mut self) -> Result<Outcome, StepFault>
        requires at_work { is_at_rest self.old.state.core.panel.status ≡ false }
        requires within { self.old.state.clock + cost self.old.state ≤ clock_end }
        ensures performed { OnOk result (self.new ≡ after_step self.old Perform) }
        ensures cost { IfOk result (λ outcome. outcome.cost ≡ cost self.old.state) }
        ensures status { IfOk result (λ outcome.
            outcome.status ≡ self.new.state.core.panel.status) }
        ensures printed { IfOk result (λ outcome.
            outcome.printed ≡ print_of self.old.state.core) }
        ensures memory { IfErr result (λ fault. fault ≡ StepFault.Memory) }
        ensures unchanged { OnErr result (self.new ≡ self.old) }
    {
        let step: Step<A> = Step::Perform;
        let Ok(note) = self.history.prepare(&self.machine, &step) else {
            return Err(StepFault::Memory);
        };
        let Ok(outcome) = self.machine.next_order() else {
            return Err(StepFault::Memory);
        };
        self.history.note(note);
        Ok(outcome)
    }

    /// What the rules watch, before an order.
    fn watches(&self) -> ArrayVec<Watch, RULE_LIMIT>
        ensures { result.items ≡ map (watch_of self.now.state) self.now.rules }
    {
        let mut watches = ArrayVec::new();
        for rule in self.rules.as_slice() {
            watches.push(watch_of(&self.machine, rule));
        }
        watches
    }

    /// One order of a run; then the number of the first rule that stops the run there.
    #[inline(always)]
    pub fn go_on(&mut self) -> Result<Option<u8>, StepFault>
        ensures { IsOrderOfRun self.old.rules self.old self.new result }
    {
        if self.has_rules() {
            return self.go_on_by_rules();
        }
        self.go_on_freely()
    }

    /// Whether a run has to look at the rules: where there are none, it is one without them.
    #[inline(always)]
    fn has_rules(&self) -> bool
        ensures { rules_in_force result self.now.rules ≡ self.now.rules }
    {
        !self.rules.is_empty()
    }

    /// What watches a run that looks at nothing, by the rules there are now.
    #[inline(always)]
    pub fn quiet(&self) -> Quiet
        ensures { rules_in_force result.by_rules self.now.rules ≡ self.now.rules }
    {
        Quiet {
            by_rules: self.has_rules(),
        }
    }

    /// One order of a run that no rule stops.
    #[inline(always)]
    fn go_on_freely(&mut self) -> Result<Option<u8>, StepFault>
        ensures { IsOrderOfRun [] self.old self.new result }
    {
        self.step()?;
        Ok(None)
    }

    /// The same in a loop: what is no order that can be performed at once is kept out of it.
    #[inline(always)]
    fn run_on_freely(&mut self) -> Result<Option<u8>, StepFault>
        ensures { IsOrderOfRun [] self.old self.new result }
    {
        if !self.goes_freely() {
            return self.go_on_apart();
        }
        self.perform()?;
        Ok(None)
    }

    /// One order of a run that no rule stops, out of the way of those that can be performed at once.
    #[cold]
    #[inline(never)]
    fn go_on_apart(&mut self) -> Result<Option<u8>, StepFault>
        ensures { IsOrderOfRun [] self.old self.new result }
    {
        self.go_on_freely()
    }

    /// One order of a run by the rules, out of the way of a run without any.
    #[inline(never)]
    #[tactic(auto, using(crate::proofs::WatchLemmas::watched_stop))]
    fn go_on_by_rules(&mut self) -> Result<Option<u8>, StepFault>
        ensures { IsOrderOfRun self.old.rules self.old self.new result }
    {
        let watches = self.watches();
        self.step()?;
        Ok(first_stop_now(&self.machine, watches.as_slice()))
    }

    /// One order in the loop of a run, by the rules or without them.
    #[inline(always)]
    pub(crate) fn run_on(&mut self, by_rules: bool) -> Result<Option<u8>, StepFault>
        ensures { IsOrderOfRun (rules_in_force by_rules self.old.rules) self.old self.new result }
    {
        if by_rules {
            return self.go_on_by_rules();
        }
        self.run_on_freely()
    }

    /// Performs orders until the machine is at rest, a rule stops it or as many orders as the limit allows are done. Where an order
    /// is refused, those before it remain: for the clock's end where that order would pass it, and else for memory. Each order that is
    /// performed is kept, and ends within the clock's end.
    pub fn run(&mut self, limit: u64) -> Result<Ran, RunFault>
        ensures run { IsRun self.old.rules limit self.old self.new result }
        ensures within_clock { self.new.state.clock ≤ clock_end }
    {
        let quiet = self.quiet();
        self.run_so(limit, quiet)
    }

    /// The same, but no rule stops it.
    pub fn run_freely(&mut self, limit: u64) -> Result<Ran, RunFault>
        ensures run { IsRun [] limit self.old self.new result }
        ensures within_clock { self.new.state.clock ≤ clock_end }
    {
        self.run_so(limit, Quiet { by_rules: false })
    }

    /// A run by the rules or without them, apart from its caller: so its loop has the processor's registers for itself.
    #[inline(never)]
    fn run_so(&mut self, limit: u64, quiet: Quiet) -> Result<Ran, RunFault>
        ensures run { IsRun (rules_in_force quiet.by_rules self.old.rules) limit self.old
            self.new result }
        ensures within_clock { self.new.state.clock ≤ clock_end }
    {
        let mut quiet = quiet;
        let outcome = self.run_watched(limit, &mut quiet, &mut ());
        // That the clock is within its end is what the mark's clause says.
        let Some(_) = self.machine.mark() else {
            unreachable!()
        };
        outcome
    }

    /// Runs as `run` does, by the rules that the watcher lets stop it; the watcher has each order performed. Where it is refused
    /// memory for what it sees, that order remains as the last one, and what it keeps is not said.
    #[inline(always)]
    pub fn run_watched<K, W: Watcher<H, A, K>>(
        &mut self,
        limit: u64,
        watcher: &mut W,
        kept: &mut K,
    ) -> Result<Ran, RunFault>
        requires ready { W.ready watcher.old self.old kept.old }
        ensures { IsWatchedRun W.never_refused (W.in_force watcher.old self.old.rules) limit
            self.old self.new result
            (AreSeen (W.Sees watcher.old) self.old kept.old (orders_of result) kept.new) }
    {
        for orders in 0..limit {
            match watcher.order(self, kept) {
                Ok(None) => {}
                Ok(Some(rule)) => {
                    return Ok(Ran {
                        orders: orders + 1,
                        reason: Reason::Rule(rule),
                    });
                }
                Err(WatchFault::Refused(StepFault::AtRest)) => {
                    return Ok(Ran {
                        orders,
                        reason: Reason::Rest,
                    });
                }
                Err(WatchFault::Refused(StepFault::ClockEnd)) => {
                    return Err(RunFault {
                        orders,
                        fault: RunRefusal::ClockEnd,
                    });
                }
                Err(WatchFault::Refused(StepFault::Memory)) => {
                    return Err(RunFault {
                        orders,
                        fault: RunRefusal::Memory,
                    });
                }
                Err(WatchFault::Unseen) => {
                    return Err(RunFault {
                        orders: orders + 1,
                        fault: RunRefusal::Memory,
                    });
                }
            }
        }
        let reason = if self.look().status.is_at_rest() {
            Reason::Rest
        } else {
            Reason::Limit
        };
        Ok(Ran {
            orders: limit,
            reason,
        })
    }

    /// Presses. A live press is a step, a dead one is none and takes no memory; true where it is live.
    pub fn press(&mut self, action: Action) -> Result<bool, AllocError>
        ensures live { IfOk result (λ live. live ≡ is_live self.old.state.core.panel action) }
        ensures pressed { OnOk result (self.new ≡ (if is_live self.old.state.core.panel action
            then after_step self.old (Press action) else self.old)) }
        ensures dead { is_live self.old.state.core.panel action ≡ false → result ≡ Ok false }
        ensures unchanged { OnErr result (self.new ≡ self.old) }
    {
        if !self.is_live(&action) {
            return Ok(false);
        }
        self.press_live(&action)?;
        Ok(true)
    }

    /// Whether an action would be live.
    pub fn is_live(&self, action: &Action) -> bool
        ensures { result ≡ is_live self.now.state.core.panel action.now }
    {
        let Some(live) = self.machine.live(*action) else {
            unreachable!()
        };
        live
    }

    /// A live press.
    fn press_live(&mut self, action: &Action) -> Result<(), AllocError>
        requires { IsTrue (is_live self.old.state.core.panel action.now) }
        ensures pressed { OnOk result (self.new
            ≡ after_step self.old (Press action.now)) }
        ensures unchanged { OnErr result (self.new ≡ self.old) }
    {
        let step: Step<A> = Step::Press(*action);
        let note = self.history.prepare(&self.machine, &step)?;
        let _ = self.machine.press(*action);
        self.history.note(note);
        Ok(())
    }

    /// Word times at rest, one step. None of them is no step, and takes no memory.
    pub fn idle(&mut self, times: u64) -> Result<(), IdleFault>
        ensures rested { OnOk result (self.new ≡ (if times == 0
            then self.old else after_step self.old (Idle times))) }
        ensures at_work { (result ≡ Err IdleFault.AtWork)
            ↔ (is_at_rest self.old.state.core.panel.status ≡ false) }
        ensures clock_end { (result ≡ Err IdleFault.ClockEnd)
            ↔ (IsTrue (is_at_rest self.old.state.core.panel.status)
            × (clock_end < self.old.state.clock + times)) }
        ensures none { times ≡ 0 → result ≢ Err IdleFault.Memory }
        ensures unchanged { OnErr result (self.new ≡ self.old) }
    {
        let look = self.look();
        if !look.status.is_at_rest() {
            return Err(IdleFault::AtWork);
        }
        if passes_end(look.clock, times) {
            return Err(IdleFault::ClockEnd);
        }
        if times == 0 {
            return Ok(());
        }
        let step: Step<A> = Step::Idle(times);
        let Ok(note) = self.history.prepare(&self.machine, &step) else {
            return Err(IdleFault::Memory);
        };
        let _ = self.machine.rest(times);
        self.history.note(note);
        Ok(())
    }

    /// What the machine shows.
    pub fn look(&self) -> Look
        ensures { result ≡ look_of self.now.state }
    {
        let Some(look) = self.machine.look() else {
            unreachable!()
        };
        look
    }

    /// Mounts a tape, at rest, as one step; the reader is off afterwards. A refused tape is handed back.
    pub fn mount(&mut self, codes: Vec<Code, A>) -> Result<(), (MountFault, Vec<Code, A>)>
        ensures mounted { OnOk result (self.new ≡ after_step self.old (Mount codes.items)) }
        ensures moving { IsErrAnd result (λ e. e.0 ≡ MountFault.Moving)
            ↔ (is_at_rest self.old.state.core.panel.status ≡ false) }
        ensures too_long { IsErrAnd result (λ e. e.0 ≡ MountFault.TooLong)
            ↔ (IsTrue (is_at_rest self.old.state.core.panel.status)
            × (tape_limit < vec_len codes)) }
        ensures handed_back { IfErr result (λ e. e.1.items ≡ codes.items) }
        ensures unchanged { OnErr result (self.new ≡ self.old) }
    {
        if !self.look().status.is_at_rest() {
            return Err((MountFault::Moving, codes));
        }
        if codes.len() > TAPE_LIMIT {
            return Err((MountFault::TooLong, codes));
        }
        let step = Step::Mount(Tape::new(codes));
        let prepared = self.history.prepare(&self.machine, &step);
        let Step::Mount(tape) = step else {
            unreachable!()
        };
        let codes = tape.into_codes();
        let Ok(note) = prepared else {
            return Err((MountFault::Memory, codes));
        };
        let _ = self.machine.mount(codes);
        self.history.note(note);
        Ok(())
    }

    /// Puts a word on the drum, at rest, as one step.
    pub fn put(&mut self, address: Address, word: Word) -> Result<(), PutFault>
        ensures put { OnOk result (self.new ≡ after_step self.old (Put address word)) }
        ensures moving { (result ≡ Err PutFault.Moving)
            ↔ (is_at_rest self.old.state.core.panel.status ≡ false) }
        ensures unchanged { OnErr result (self.new ≡ self.old) }
    {
        if !self.look().status.is_at_rest() {
            return Err(PutFault::Moving);
        }
        let step: Step<A> = Step::Put(address, word);
        let Ok(note) = self.history.prepare(&self.machine, &step) else {
            return Err(PutFault::Memory);
        };
        let _ = self.machine.put(address, word);
        self.history.note(note);
        Ok(())
    }

    /// Goes back to the state in which the first of the last `orders` orders began; that order and all later steps are forgotten. No order
    /// back changes nothing.
    pub fn back(&mut self, orders: u64) -> Result<(), BackFault>
        ensures back { OnOk result (self.new ≡ (if orders == 0
            then self.old else after_back self.old orders)) }
        ensures none { orders ≡ 0 → result ≡ Ok tt }
        ensures freely { IsTrue H.goes_back_freely → result ≢ Err BackFault.Memory }
        ensures too_far { (kept : ℕ) → (result ≡ Err (BackFault.TooFar kept))
            ↔ ((kept ≡ orders_in self.old.steps) × (kept < orders)) }
        ensures unchanged { OnErr result (self.new ≡ self.old) }
    {
        if orders == 0 {
            return Ok(());
        }
        self.history.back(orders, &mut self.machine)
    }

    /// Goes on with another machine in the place of this one. No step is kept afterwards; the rules stay.
    pub fn go_on_with(&mut self, machine: Machine<A>)
        requires { machine ≡ at_boundary machine.state }
        ensures { self.new ≡ record self.old { state = machine.state; steps = [] } }
    {
        self.machine = machine;
        self.history.clear();
    }

    /// How many steps are kept. Each of them leads to the next, and the last one to the present state.
    pub fn kept(&self) -> u64
        ensures count { result ≡ length self.now.steps }
        ensures within { result ≤ self.now.capacity }
        ensures leads { Leads self.now.steps self.now.state }
    {
        self.history.kept()
    }

    /// How many orders are kept.
    pub fn orders_kept(&self) -> u64
        ensures { result ≡ orders_in self.now.steps }
    {
        self.history.orders_kept()
    }

    /// The rules, in the order of their numbers.
    pub fn rules(&self) -> &[Rule]
        ensures { result.now ≡ self.now.rules }
    {
        self.rules.as_slice()
    }

    /// Adds a rule after the others, and answers its number.
    pub fn add_rule(&mut self, rule: Rule) -> Result<u8, RuleFault>
        ensures added { OnOk result (self.new
            ≡ record self.old { rules = self.old.rules ++ rule ∷ [] }) }
        ensures number { IfOk result (λ number. number ≡ length self.old.rules) }
        ensures full { (result ≡ Err RuleFault.Full) ↔ (length self.old.rules ≡ rule_limit) }
        ensures unchanged { OnErr result (self.new ≡ self.old) }
    {
        let number = self.rules.len();
        if self.rules.try_push(rule).is_err() {
            return Err(RuleFault::Full);
        }
        Ok(number as u8)
    }

    /// Takes out the rule of this number; later rules move down by one. `None` where there is no such rule.
    pub fn remove_rule(&mut self, number: u8) -> Option<Rule>
        ensures removed { result ≡ slice_get self.old.rules number }
        ensures rules { self.new ≡ record self.old { rules = remove self.old.rules number } }
    {
        self.rules.pop_at(usize::from(number))
    }

    /// Goes back to the beginning of the latest kept order that a rule hits; answers how many orders back that is, and the number
    /// of the first rule that hits it.
    pub fn last_hit(&mut self) -> Result<(u64, u8), HitFault>
        ensures hit { IfOk result (λ hit.
            (last_hit self.old.rules self.old.steps ≡ Some hit)
            × (self.new ≡ after_back self.old hit.0)) }
        ensures no_hit { (kept : ℕ) → result ≡ Err (HitFault.NoHit kept)
            → (last_hit self.old.rules self.old.steps ≡ None)
            × (kept ≡ orders_in self.old.steps) }
        ensures unchanged { OnErr result (self.new ≡ self.old) }
    {
        let Ok(found) = self.history.find(&self.machine, self.rules.as_slice()) else {
            return Err(HitFault::Memory);
        };
        let Some(hit) = found else {
            return Err(HitFault::NoHit(self.orders_kept()));
        };
        match self.history.back(hit.0, &mut self.machine) {
            Ok(()) => Ok(hit),
            Err(BackFault::Memory) => Err(HitFault::Memory),
            Err(BackFault::TooFar(_)) => unreachable!(),
        }
    }

    /// The machine.
    pub fn machine(&self) -> &Machine<A>
        ensures { result.now ≡ at_boundary self.now.state }
    {
        &self.machine
    }
}

impl<H: History<A>, A: Allocator + Copy> Debugger<H, A> {
    /// Loads a program by the keyed-in loader, and answers how many orders it performed: the program's words then lie over what was
    /// on the drum, and the clock has gone on by what all of it cost. No step is kept afterwards, unless nothing
    /// was done: where there is no memory for the tape (`Memory`), all is as before. Where the clock would pass its end (`ClockEnd`),
    /// the machine is at the first boundary of the loading whose activity would pass it. `Moving` and `BadCut` are never
    /// answered.
    pub fn load<B: Allocator>(&mut self, alloc: A, image: &Image<B>) -> Result<u64, LoadFault>
        ensures loaded { OnOk result (self.new ≡ record self.old {
          state = loaded self.old.state (longest_load image.now);
          steps = [];
        }) }
        ensures program { OnOk result (IsLoadedOver 22 self.old.state.core.words
            self.new.state.core.words image.now.cells) }
        ensures time { OnOk result (self.new.state.clock
            ≡ self.old.state.clock + loading_cost self.old.state (longest_load image.now)) }
        ensures orders { IfOk result (λ orders. orders ≡ (longest_load image.now).orders) }
        ensures whole { OnOk result
            (loading_stopped self.old.state (longest_load image.now) ≡ None) }
        ensures moving { result ≢ Err LoadFault.Moving }
        ensures bad_cut { result ≢ Err LoadFault.BadCut }
        ensures no_memory { result ≡ Err LoadFault.Memory → self.new ≡ self.old }
        ensures stands { result ≡ Err LoadFault.ClockEnd
            → loading_stopped self.old.state (longest_load image.now) ≡ Some self.new.state }
        ensures emptied { result ≡ Err LoadFault.ClockEnd
            → self.new ≡ record self.old { state = self.new.state; steps = [] } }
    {
        match load(alloc, &mut self.machine, image) {
            Ok(orders) => {
                self.history.clear();
                Ok(orders)
            }
            Err(LoadFault::ClockEnd) => {
                self.history.clear();
                Err(LoadFault::ClockEnd)
            }
            Err(LoadFault::Memory) => Err(LoadFault::Memory),
            Err(LoadFault::Moving | LoadFault::BadCut) => unreachable!(),
        }
    }
}

impl<H: Origins<A>, A: Allocator> Debugger<H, A> {
    /// Notes what the kept steps changed, as far as that is not done yet: `origin` then finds out without a search that none of them
    /// changed a word.
    pub fn note_changes(&mut self)
        ensures { self.new ≡ self.old }
    {
        self.history.note_changes();
    }

    /// The latest kept step that changed the word at an address, if one did.
    pub fn origin(&self, address: Address) -> Option<Origin>
        ensures { result ≡ latest_change address self.now.steps }
    {
        self.history.origin(&self.machine, address)
    }
}

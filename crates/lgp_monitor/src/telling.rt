//! Runs that are reported: order by order, added up, along the drum, or by where their words would have cost less.

ghost use Rattle.std.specs.Prelude.{◌≡◌, ◌++◌, ℕ, IfOk, OnOk, Option};
ghost use Rattle.lgp_table.specs.State.{State};
ghost use Rattle.lgp_history.specs.declared.origin.Origin.{Origin};
ghost use Rattle.lgp_optimum.specs.OptimumKept.{IsOptimumOf};
ghost use Rattle.lgp_debugger.specs.Debugging.{order_origins, performed};
ghost use Rattle.lgp_debugger.specs.Run.{UnlessMemory, orders_of, run_of};
ghost use Rattle.lgp_script.specs.HistoryCommands.{orders_run, replied_to_run};
ghost use Rattle.lgp_script.specs.LabState.{labels_of};
ghost use Rattle.lgp_script.specs.Reply.{IsReplied};
ghost use Rattle.lgp_monitor.specs.Telling.{form_of, profile_text_in, reported_text};
ghost use Rattle.lgp_monitor.specs.TellingInside.{sectors_told};

use crate::labels::NamedAddresses;
use lgp_assembler::Name;
use lgp_data::{AccountRecords, push_optimum_data, push_profile_data, push_word_optimum_data};
use lgp_debugger::{Debugger, Ran, RunFault, RunRefusal};
use lgp_fields::RecordForm;
use lgp_history::Records;
use lgp_optimum::{Optimum, optimum_run, push_optimum, push_word_optimum};
use lgp_script::{Laboratory, Reply, Teller};
use lgp_trace::{
    InColumns, Profile, draw_run, profile_run, push_heading, push_profile, push_rows_begun,
    push_rows_ended, trace_run,
};
use lgp_word::Address;
use std::alloc::{AllocError, Allocator};

/// In which form a run is reported.
#[derive(Clone, Copy, Debug, PartialEq, Eq)]
pub enum Report {
    /// In columns, for people.
    Columns,
    /// As records, for programs.
    Records(RecordForm),
}

/// How a run is reported.
#[derive(Clone, Copy)]
pub enum Telling {
    /// By the account of each order, in a form.
    Trace(Report),
    /// By what all orders took together, in a form.
    Profile(Report),
    /// By its orders along the drum.
    Drum,
    /// By the words that would have cost less at other sectors, in a form.
    Optimum(Report),
    /// By what one word would have cost at each sector, in a form.
    OptimumOf(Report, Address),
}

impl Telling {
    /// The form in which the run is reported.
    pub fn form(&self) -> Report
        ensures { result ≡ form_of self.now }
    {
        match self {
            Telling::Trace(form)
            | Telling::Profile(form)
            | Telling::Optimum(form)
            | Telling::OptimumOf(form, _) => *form,
            Telling::Drum => Report::Columns,
        }
    }
}

/// A refused growth, after which nothing is counted.
const NO_MEMORY: RunFault = RunFault {
    orders: 0,
    fault: RunRefusal::Memory,
};

/// Runs a debugger as `run` does, and appends the accounts of its orders in columns.
#[tactic(auto, unfolding(crate::specs::Telling::reported_text))]
fn trace_columns<A: Allocator + Copy>(
    debugger: &mut Debugger<Records<A>, A>,
    limit: u64,
    names: &[(Name, u16)],
    text: &mut Vec<u8, A>,
) -> Result<Ran, RunFault>
    ensures ran { UnlessMemory result
        (run_of debugger.old.rules limit debugger.old.state ≡ result) }
    ensures performed { UnlessMemory result
        (debugger.new ≡ performed debugger.old (orders_of result)) }
    ensures reported { UnlessMemory result (text.new.items ≡ text.old.items
        ++ reported_text (Telling.Trace Report.Columns) names.now debugger.old.state
        (order_origins debugger.old) (orders_of result)) }
{
    if push_heading(text).is_err() {
        return Err(NO_MEMORY);
    }
    let labels = NamedAddresses { names };
    trace_run(debugger, limit, text, &InColumns { labels: &labels })
}

/// Tells a run by the account of each order.
#[derive(Drop)]
struct OrderByOrder {
    form: Report,
}

impl Teller for OrderByOrder {
    ghost use Rattle.lgp_monitor.specs.declared.telling.Telling.{Telling};

    ghost reported = { λ teller. reported_text (Telling.Trace teller.form) };

    #[tactic(auto, unfolding(crate::specs::Telling::reported_text))]
    fn run<A: Allocator + Copy>(
        &self,
        _alloc: A,
        debugger: &mut Debugger<Records<A>, A>,
        limit: u64,
        names: &[(Name, u16)],
        text: &mut Vec<u8, A>,
    ) -> Result<Ran, RunFault> {
        match self.form {
            Report::Columns => trace_columns(debugger, limit, names, text),
            Report::Records(form) => {
                trace_run(debugger, limit, text, &AccountRecords { form, names })
            }
        }
    }
}

/// Appends the profile of a given number of orders in a form.
fn push_added_up<A: Allocator>(
    text: &mut Vec<u8, A>,
    form: Report,
    orders: u64,
    profile: &Profile<A>,
    names: &[(Name, u16)],
) -> Result<(), AllocError>
    ensures { OnOk result (text.new.items
        ≡ text.old.items ++ profile_text_in form names.now orders profile.now) }
{
    match form {
        Report::Columns => push_profile(text, orders, profile, &NamedAddresses { names }),
        Report::Records(form) => push_profile_data(text, form, names, orders, profile),
    }
}

/// Tells a run by what all orders took together.
#[derive(Drop)]
struct AddedUp {
    form: Report,
}

impl Teller for AddedUp {
    ghost use Rattle.lgp_monitor.specs.declared.telling.Telling.{Telling};

    ghost reported = { λ teller. reported_text (Telling.Profile teller.form) };

    #[tactic(auto, unfolding(crate::specs::Telling::reported_text))]
    fn run<A: Allocator + Copy>(
        &self,
        alloc: A,
        debugger: &mut Debugger<Records<A>, A>,
        limit: u64,
        names: &[(Name, u16)],
        text: &mut Vec<u8, A>,
    ) -> Result<Ran, RunFault> {
        let Ok(mut profile) = Profile::new(alloc) else {
            return Err(NO_MEMORY);
        };
        let outcome = profile_run(debugger, limit, &mut profile);
        let orders = orders_in(&outcome);
        if push_added_up(text, self.form, orders, &profile, names).is_err() {
            return Err(NO_MEMORY);
        }
        outcome
    }
}

/// Tells a run by its orders along the drum.
struct AlongTheDrum;

impl Teller for AlongTheDrum {
    ghost use Rattle.lgp_monitor.specs.declared.telling.Telling.{Telling};

    ghost reported = { λ _. reported_text Telling.Drum };

    #[tactic(auto, unfolding(crate::specs::Telling::reported_text))]
    fn run<A: Allocator + Copy>(
        &self,
        _alloc: A,
        debugger: &mut Debugger<Records<A>, A>,
        limit: u64,
        _names: &[(Name, u16)],
        text: &mut Vec<u8, A>,
    ) -> Result<Ran, RunFault> {
        if push_rows_begun(text, debugger.look().clock).is_err() {
            return Err(NO_MEMORY);
        }
        let outcome = draw_run(debugger, limit, text);
        if push_rows_ended(text, debugger.look().clock).is_err() {
            return Err(NO_MEMORY);
        }
        outcome
    }
}

/// How many orders a run has performed.
fn orders_in(outcome: &Result<Ran, RunFault>) -> u64
    ensures { result ≡ orders_of outcome.now }
{
    match outcome {
        Ok(ran) => ran.orders,
        Err(fault) => fault.orders,
    }
}

/// Appends which words would have cost less at other sectors, or what one word would have cost at each.
#[tactic(auto, unfolding(crate::specs::Telling::reported_text))]
fn push_sectors<A: Allocator + Copy>(
    alloc: A,
    text: &mut Vec<u8, A>,
    orders: u64,
    optimum: &Optimum<A>,
    sectors: &BySectors,
    names: &[(Name, u16)],
) -> Result<(), AllocError>
    ensures { (s : State) → (origins : ℕ → Option Origin) → IsOptimumOf optimum.now s orders
        → OnOk result (text.new.items ≡ text.old.items
        ++ reported_text (sectors_told sectors.now.form sectors.now.word) names.now s origins orders) }
{
    let labels = NamedAddresses { names };
    match (sectors.form, sectors.word) {
        (Report::Columns, Some(word)) => push_word_optimum(text, orders, optimum, word, &labels),
        (Report::Columns, None) => push_optimum(alloc, text, orders, optimum, &labels),
        (Report::Records(form), Some(word)) => {
            push_word_optimum_data(text, form, names, orders, optimum, word)
        }
        (Report::Records(form), None) => {
            push_optimum_data(alloc, text, form, names, orders, optimum)
        }
    }
}

/// Tells a run by the words that would have cost less at other sectors, or by what one word would have cost at each, in a form.
#[derive(Drop)]
struct BySectors {
    form: Report,
    word: Option<Address>,
}

impl BySectors {
    /// Runs a debugger as `run` does, and notes in `optimum` what its orders would have taken.
    fn run_noting<A: Allocator + Copy>(
        &self,
        alloc: A,
        debugger: &mut Debugger<Records<A>, A>,
        limit: u64,
        names: &[(Name, u16)],
        text: &mut Vec<u8, A>,
        optimum: &mut Optimum<A>,
    ) -> Result<Ran, RunFault>
        ensures ran { UnlessMemory result
            (run_of debugger.old.rules limit debugger.old.state ≡ result) }
        ensures performed { UnlessMemory result
            (debugger.new ≡ performed debugger.old (orders_of result)) }
        ensures reported { UnlessMemory result (text.new.items ≡ text.old.items
            ++ reported_text (sectors_told self.now.form self.now.word) names.now debugger.old.state
            (order_origins debugger.old) (orders_of result)) }
    {
        let outcome = optimum_run(debugger, limit, optimum);
        let orders = orders_in(&outcome);
        if push_sectors(alloc, text, orders, optimum, self, names).is_err() {
            return Err(NO_MEMORY);
        }
        outcome
    }
}

impl Teller for BySectors {
    ghost use Rattle.lgp_monitor.specs.TellingInside.{sectors_told};

    ghost reported = { λ teller. reported_text (sectors_told teller.form teller.word) };

    fn run<A: Allocator + Copy>(
        &self,
        alloc: A,
        debugger: &mut Debugger<Records<A>, A>,
        limit: u64,
        names: &[(Name, u16)],
        text: &mut Vec<u8, A>,
    ) -> Result<Ran, RunFault> {
        let Ok(mut optimum) = Optimum::new(alloc) else {
            return Err(NO_MEMORY);
        };
        self.run_noting(alloc, debugger, limit, names, text, &mut optimum)
    }
}

/// Does what the command `run` does, and appends what is reported of its orders in this way.
pub fn run_told<A: Allocator + Copy>(
    laboratory: &mut Laboratory<A>,
    telling: Telling,
    limit: u64,
    text: &mut Vec<u8, A>,
) -> Result<Reply, AllocError>
    ensures reply { IfOk result (λ reply. IsReplied reply laboratory.new
        (replied_to_run laboratory.old limit)) }
    ensures text { OnOk result (text.new.items ≡ text.old.items
        ++ reported_text telling (labels_of laboratory.old.source) laboratory.old.debugger.state
        (order_origins laboratory.old.debugger) (orders_run limit laboratory.old.debugger)) }
{
    match telling {
        Telling::Trace(form) => laboratory.run_told(&OrderByOrder { form }, limit, text),
        Telling::Profile(form) => laboratory.run_told(&AddedUp { form }, limit, text),
        Telling::Drum => laboratory.run_told(&AlongTheDrum, limit, text),
        Telling::Optimum(form) => {
            laboratory.run_told(&BySectors { form, word: None }, limit, text)
        }
        Telling::OptimumOf(form, word) => {
            let word = Some(word);
            laboratory.run_told(&BySectors { form, word }, limit, text)
        }
    }
}

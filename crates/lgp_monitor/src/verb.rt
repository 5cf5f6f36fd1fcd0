//! The commands of the monitor, each with what comes after its name.

ghost use Rattle.std.specs.Prelude.{◌≡◌, drop};
ghost use Rattle.lgp_text.specs.NamedValues.{named, pairs_of};
ghost use Rattle.lgp_monitor.specs.Verbs.{only_asks, operands_form, operands_kind, verb_names};

use crate::telling::Report;
use lgp_fields::RecordForm;
use lgp_text::{Named, value_named};

/// A command with nothing after its name.
#[derive(Clone, Copy)]
pub enum LoneCommand {
    /// One of scripts.
    Script,
    /// One of scripts that only asks.
    ScriptQuestion,
    Paper,
    Rules,
    Labels,
    Live,
    Commands,
    PanelData,
    CommandsData,
    OperationsData,
    FaultsData,
    StateData,
    LabelsData,
    RulesData,
    TapeData,
    SourceData,
    Transcript,
    New,
}

/// A command with an address after its name.
#[derive(Clone, Copy)]
pub enum AddressCommand {
    /// Rules, as scripts have them.
    Break,
    Watch,
    Go,
    Why,
    WhyData,
    Cost,
}

/// A command with a range of words after its name.
#[derive(Clone, Copy)]
pub enum RangeCommand {
    Words,
    Show,
    /// Words as records for programs.
    ShowData,
}

/// A command with a number after its name.
#[derive(Clone, Copy)]
pub enum NumberCommand {
    /// One of scripts.
    Script,
    /// Runs that are reported.
    Trace(Report),
    Profile(Report),
    Drum,
    /// Runs that an operator's typewriter starts again.
    Operate,
    /// Shows what was printed after the first codes.
    PaperData,
}

/// What a line's first word says: what comes after it, and what is done.
#[derive(Clone, Copy)]
pub enum Verb {
    /// Nothing comes after it.
    Lone(LoneCommand),
    /// An address.
    Address(AddressCommand),
    /// A number.
    Number(NumberCommand),
    /// A number, and perhaps an address; what is reported has a form.
    NumberAddress(Report),
    /// A number, and perhaps a condition.
    Run,
    /// An address, and how many words from it on.
    Range(RangeCommand),
    /// The same, and perhaps the place after which their point is.
    ScaledRange,
    /// The same, and a number of printed codes.
    CountedRange,
    /// An address and a word.
    Word,
    /// A text.
    Text,
    /// A button of the panel, or a switch and its position.
    Key,
    /// Nothing where lines of a source follow, or a file in the program.
    Source,
    /// A file, in the program.
    File,
    /// The number of an order, and a line that is answered as at its beginning.
    Moment,
    /// The number of an order, or a condition that orders meet.
    To,
    /// A line for programs.
    Line,
    /// A command or nothing.
    Command,
    /// Nothing, in the program.
    End,
}

/// The commands by their first word.
const VERBS: [Named<Verb>; 71] = [
    (b"put", Verb::Word),
    (b"go", Verb::Address(AddressCommand::Go)),
    (b"mount", Verb::Text),
    (b"press", Verb::Key),
    (b"type", Verb::Text),
    (b"turn", Verb::Number(NumberCommand::Script)),
    (b"orders", Verb::Number(NumberCommand::Script)),
    (b"run", Verb::Run),
    (b"operate", Verb::Number(NumberCommand::Operate)),
    (
        b"trace",
        Verb::Number(NumberCommand::Trace(Report::Columns)),
    ),
    (
        b"profile",
        Verb::Number(NumberCommand::Profile(Report::Columns)),
    ),
    (b"drum", Verb::Number(NumberCommand::Drum)),
    (b"optimum", Verb::NumberAddress(Report::Columns)),
    (b"why", Verb::Address(AddressCommand::Why)),
    (b"back", Verb::Number(NumberCommand::Script)),
    (b"last", Verb::Lone(LoneCommand::Script)),
    (b"at", Verb::Moment),
    (b"to", Verb::To),
    (b"panel", Verb::Lone(LoneCommand::ScriptQuestion)),
    (b"words", Verb::Range(RangeCommand::Words)),
    (b"show", Verb::Range(RangeCommand::Show)),
    (b"numbers", Verb::ScaledRange),
    (b"printed", Verb::Lone(LoneCommand::ScriptQuestion)),
    (b"paper", Verb::Lone(LoneCommand::Paper)),
    (b"dump", Verb::Lone(LoneCommand::ScriptQuestion)),
    (b"source", Verb::Source),
    (b"do", Verb::File),
    (b"tape", Verb::File),
    (b"archive", Verb::File),
    (b"bytes", Verb::File),
    (b"copy", Verb::File),
    (b"copy-archive", Verb::File),
    (b"copy-bytes", Verb::File),
    (b"punch", Verb::File),
    (b"punch-archive", Verb::File),
    (b"punch-bytes", Verb::File),
    (b"save", Verb::File),
    (b"save-simh", Verb::File),
    (b"restore", Verb::File),
    (b"restore-simh", Verb::File),
    (b"list", Verb::Lone(LoneCommand::ScriptQuestion)),
    (b"load", Verb::Lone(LoneCommand::Script)),
    (b"break", Verb::Address(AddressCommand::Break)),
    (b"watch", Verb::Address(AddressCommand::Watch)),
    (b"drop", Verb::Number(NumberCommand::Script)),
    (b"rules", Verb::Lone(LoneCommand::Rules)),
    (b"labels", Verb::Lone(LoneCommand::Labels)),
    (b"live", Verb::Lone(LoneCommand::Live)),
    (b"commands", Verb::Lone(LoneCommand::Commands)),
    (b"panel-data", Verb::Lone(LoneCommand::PanelData)),
    (b"commands-data", Verb::Lone(LoneCommand::CommandsData)),
    (b"operations-data", Verb::Lone(LoneCommand::OperationsData)),
    (b"faults-data", Verb::Lone(LoneCommand::FaultsData)),
    (b"state-data", Verb::Lone(LoneCommand::StateData)),
    (b"show-data", Verb::Range(RangeCommand::ShowData)),
    (b"why-data", Verb::Address(AddressCommand::WhyData)),
    (b"labels-data", Verb::Lone(LoneCommand::LabelsData)),
    (b"rules-data", Verb::Lone(LoneCommand::RulesData)),
    (b"paper-data", Verb::Number(NumberCommand::PaperData)),
    (b"tape-data", Verb::Lone(LoneCommand::TapeData)),
    (b"source-data", Verb::Lone(LoneCommand::SourceData)),
    (b"cost", Verb::Address(AddressCommand::Cost)),
    (
        b"trace-data",
        Verb::Number(NumberCommand::Trace(Report::Records(RecordForm::Lines))),
    ),
    (
        b"profile-data",
        Verb::Number(NumberCommand::Profile(Report::Records(RecordForm::Lines))),
    ),
    (
        b"optimum-data",
        Verb::NumberAddress(Report::Records(RecordForm::Lines)),
    ),
    (b"look", Verb::CountedRange),
    (b"json", Verb::Line),
    (b"transcript", Verb::Lone(LoneCommand::Transcript)),
    (b"new", Verb::Lone(LoneCommand::New)),
    (b"help", Verb::Command),
    (b"quit", Verb::End),
];

/// The commands by their first word, as they are handed out.
pub fn named_verbs() -> &'static [Named<Verb>]
    ensures { pairs_of result.now ≡ verb_names }
{
    &VERBS
}

/// Where the commands for programs begin: no name in front of it ends in `-data`.
const FIRST_FOR_PROGRAMS: usize = 49;

/// The commands from that one on.
fn verbs_for_programs() -> &'static [Named<Verb>]
    ensures { pairs_of result.now ≡ drop FIRST_FOR_PROGRAMS verb_names }
{
    &VERBS[FIRST_FOR_PROGRAMS..]
}

/// The command of a first word. One that ends in `-data` is looked for among the commands for programs alone.
pub fn verb_named(name: &[u8]) -> Option<Verb>
    ensures { result ≡ named verb_names name.now }
{
    if name.ends_with(b"-data") {
        return value_named(verbs_for_programs(), name);
    }
    value_named(named_verbs(), name)
}

/// What comes after a command's name in its form.
#[tactic(auto, unfolding(crate::specs::Verbs::operands_form))]
pub fn operands_form(verb: Verb) -> &'static [u8]
    ensures { result.now ≡ operands_form verb }
{
    match verb {
        Verb::Lone(_) => b"",
        Verb::Address(_) => b" ttss",
        Verb::Number(_) => b" NUMBER",
        Verb::NumberAddress(Report::Columns) => b" NUMBER or optimum NUMBER ttss",
        Verb::NumberAddress(Report::Records(_)) => b" NUMBER or optimum-data NUMBER ttss",
        Verb::Run => {
            b" NUMBER or run NUMBER until CONDITION: ttss, a word as put ttss has it, ttss < NUMBER, changed ttss, printed NUMBER, rows NUMBER or clock NUMBER, each also after NUMBER times"
        }
        Verb::Range(_) => b" ttss NUMBER, at most 64",
        Verb::ScaledRange => b" ttss NUMBER, at most 64, or numbers ttss NUMBER POINT",
        Verb::CountedRange => b" ttss NUMBER, at most 64, and how many printed codes are known",
        Verb::Word => {
            b" ttss WORD, FRACTION or OPERATION as in a source, or put ttss = NUMBER or = NUMBER POINT"
        }
        Verb::Text => b" TEXT",
        Verb::Key => {
            b" normal, oneop, manual, start, clear, fill, execute, compute or read, or bp32, bp16, bp8, bp4, transfer or sixbit with up or down"
        }
        Verb::Source => {
            b", then its lines, then a line with only a point; in the program lgp_monitor also source FILE"
        }
        Verb::File => b" FILE, in the program lgp_monitor",
        Verb::Moment => {
            b" NUMBER LINE, answered as at the beginning of the order of that number, counted from 0"
        }
        Verb::To => {
            b" NUMBER, the beginning of the order of that number, counted from 0, or to first CONDITION or to last CONDITION, as help run has them"
        }
        Verb::Line => b" LINE, where LINE is one for programs, such as state-data",
        Verb::Command => b" or help COMMAND",
        Verb::End => b", which ends the program lgp_monitor",
    }
}

/// The same in a word or two, for programs.
#[tactic(auto, unfolding(crate::specs::Verbs::operands_kind))]
pub fn operands_kind(verb: Verb) -> &'static [u8]
    ensures { result.now ≡ operands_kind verb }
{
    match verb {
        Verb::Lone(_) | Verb::End => b" alone\n",
        Verb::Address(_) => b" address\n",
        Verb::Number(_) | Verb::NumberAddress(_) | Verb::Run => b" number\n",
        Verb::Range(_) | Verb::ScaledRange | Verb::CountedRange => b" range\n",
        Verb::Word => b" address word\n",
        Verb::Text => b" text\n",
        Verb::Key => b" button\n",
        Verb::Source => b" source\n",
        Verb::File => b" file\n",
        Verb::Moment => b" number line\n",
        Verb::To => b" order\n",
        Verb::Line => b" line\n",
        Verb::Command => b" command\n",
    }
}

/// Whether a command shows something and changes nothing.
pub fn only_asks(verb: Verb) -> bool
    ensures { result ≡ only_asks verb }
{
    match verb {
        Verb::Lone(command) => !matches!(command, LoneCommand::Script | LoneCommand::New),
        Verb::Address(command) => {
            matches!(
                command,
                AddressCommand::Why | AddressCommand::WhyData | AddressCommand::Cost
            )
        }
        Verb::Number(command) => matches!(command, NumberCommand::PaperData),
        Verb::Range(_) | Verb::ScaledRange | Verb::CountedRange | Verb::Moment | Verb::Command =>
            true,
        _ => false,
    }
}

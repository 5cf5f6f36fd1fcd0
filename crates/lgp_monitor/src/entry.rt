//! What a typed line asks for.

ghost use Rattle.std.specs.Prelude.{◌≡◌, ◌||◌, Ok, if◌then◌else◌, is_some, option_and_then, option_map};
ghost use Rattle.std.specs.Option.{option_map_or};
ghost use Rattle.lgp_command.specs.Command.{command_of, is_comment, lone_number};
ghost use Rattle.lgp_command.specs.Span.{range_of};
ghost use Rattle.lgp_stream.specs.LineWords.{after_word, has_no_word};
ghost use Rattle.lgp_text.specs.NamedValues.{named};
ghost use Rattle.lgp_monitor.specs.Verbs.{verb_names};
ghost use Rattle.lgp_monitor.specs.Wrongs.{name_wrong};
ghost use Rattle.lgp_monitor.specs.Entry.{address_entry, and_then, as_objects, asked_alone, asked_as_objects, asked_at, asked_by, asked_of, asked_with, entry_by, entry_of, has_objects, in_form, is_data, is_for_programs, is_objects, is_records, lone_point, lone_word, look_entry, numbers_entry, optimum_entry, optimum_of, plain_entry, point_at, put_entry, question_as_objects, range_at, read_of, report_as_objects, run_entry, telling_as_objects, to_entry, to_sought, typed_by, typed_entry};

use crate::condition::{condition_at, until_at};
use crate::data_question::DataQuestion;
use crate::question::Question;
use crate::scaled::Point;
use crate::telling::{Report, Telling};
use crate::value::{address_at, first_address, point_at, value_at, value_wrong};
use crate::verb::{AddressCommand, LoneCommand, NumberCommand, RangeCommand, Verb, verb_named};
use crate::way::Way;
use crate::wrong::{LineWord, Part, Wrong, name_wrong};
use lgp_assembler::Name;
use lgp_command::{Asked, Command, Count, Span, asked_in, is_comment, lone_count};
use lgp_fields::RecordForm;
use lgp_moment::Which;
use lgp_stream::{LineBytes, Split, has_no_word, split_word};
use lgp_when::Until;
use lgp_word::Address;

/// What a typed line asks for.
#[derive(Clone, Copy)]
pub enum Entry {
    /// Nothing: it is blank or a comment, or it is too long.
    Itself,
    /// A part of it is in no command's form, and what is wrong with that.
    Misformed(Part, Wrong),
    /// A command of scripts.
    Script(Command),
    /// The machine started at an address.
    Go(Address),
    /// A run of at most a given number of orders that is reported.
    Reported(Telling, Count),
    /// Runs of at most a given number of orders, with Start pressed where the machine has halted at a z after a p, as often at most.
    Operate(Count),
    /// A run of at most a given number of orders that ends with the one that meets a condition as often as is waited for.
    Until(Until, Count),
    /// A session brought to the beginning of an order, and the form in which it is said where it is then.
    To(Way, RecordForm),
    /// Something that is shown and changes nothing.
    Asked(Question),
    /// The script lines so far.
    Transcript,
    /// A new laboratory.
    New,
    /// The commands.
    Help,
    /// The form of a command.
    HelpOf(Verb),
}

/// A word for an address.
#[tactic(auto, unfolding(crate::specs::Entry::put_entry))]
fn put_entry(names: &[(Name, u16)], counter: Address, operands: &[u8]) -> Result<Entry, Wrong>
    ensures { result ≡ put_entry names.now counter operands.now }
{
    let place = first_address(names, counter, Verb::Word, LineWord::First, operands)?;
    let value = split_word(operands).rest;
    match value_at(names, place, value) {
        Some(word) => Ok(Entry::Script(Command::Put(place, word))),
        None => Err(value_wrong(names, place, value)),
    }
}

/// A question of a program, whose reply is lines.
fn asked_data(question: DataQuestion) -> Entry
    ensures { result ≡ Entry.Asked (Question.Data question RecordForm.Lines) }
{
    Entry::Asked(Question::Data(question, RecordForm::Lines))
}

/// What a command asks for with an address.
fn asked_at(command: AddressCommand, address: Address) -> Entry
    ensures { result ≡ asked_at command address }
{
    match command {
        AddressCommand::Break => Entry::Script(Command::Break(address)),
        AddressCommand::Watch => Entry::Script(Command::Watch(address)),
        AddressCommand::Go => Entry::Go(address),
        AddressCommand::Why => Entry::Asked(Question::Why(address)),
        AddressCommand::WhyData => asked_data(DataQuestion::Why(address)),
        AddressCommand::Cost => asked_data(DataQuestion::Cost(address)),
    }
}

/// A command with an address and no more.
#[tactic(auto, unfolding(crate::specs::Entry::address_entry))]
fn address_entry(
    names: &[(Name, u16)],
    counter: Address,
    command: AddressCommand,
    operands: &[u8],
) -> Result<Entry, Wrong>
    ensures { result ≡ address_entry names.now counter command operands.now }
{
    let verb = Verb::Address(command);
    let address = first_address(names, counter, verb, LineWord::First, operands)?;
    if has_no_word(split_word(operands).rest) {
        Ok(asked_at(command, address))
    } else {
        Err(Wrong::Operands(verb))
    }
}

/// A given number of words from an address on.
fn range_by(address: Address, count: Option<Count>) -> Option<Span>
    ensures { result ≡ option_and_then (range_of address) count }
{
    match count {
        Some(count) => Span::new(address, count.get()),
        None => None,
    }
}

/// A range of words, by the first operand and a number.
#[tactic(auto, unfolding(crate::specs::Entry::range_at))]
fn range_at(
    names: &[(Name, u16)],
    counter: Address,
    verb: Verb,
    operands: &[u8],
    count: &[u8],
) -> Result<Span, Wrong>
    ensures { result ≡ range_at names.now counter verb operands.now count.now }
{
    let first = first_address(names, counter, verb, LineWord::First, operands)?;
    range_by(first, lone_count(count)).ok_or(Wrong::Operands(verb))
}

/// What a command asks for with a range of words.
fn asked_of(command: RangeCommand, range: Span) -> Entry
    ensures { result ≡ asked_of command range }
{
    match command {
        RangeCommand::Words => Entry::Script(Command::Words(range)),
        RangeCommand::Show => Entry::Script(Command::Show(range)),
        RangeCommand::ShowData => asked_data(DataQuestion::Show(range)),
    }
}

/// A command with a range of words and no more.
fn range_entry(
    names: &[(Name, u16)],
    counter: Address,
    command: RangeCommand,
    operands: &[u8],
) -> Result<Entry, Wrong>
    ensures { result ≡ and_then (λ range. Ok (asked_of command range))
        (range_at names.now counter (Verb.Range command) operands.now (after_word operands.now)) }
{
    let count = split_word(operands).rest;
    let range = range_at(names, counter, Verb::Range(command), operands, count)?;
    Ok(asked_of(command, range))
}

/// The place after which the point of numbers is, by what comes after how many they are.
fn lone_point(operands: &[u8]) -> Option<Point>
    ensures { result ≡ lone_point operands.now }
{
    if has_no_word(split_word(operands).rest) {
        Point::read(point_at(operands))
    } else {
        None
    }
}

/// A range of words as numbers.
#[tactic(auto, unfolding(crate::specs::Entry::numbers_entry))]
fn numbers_entry(names: &[(Name, u16)], counter: Address, operands: &[u8]) -> Result<Entry, Wrong>
    ensures { result ≡ numbers_entry names.now counter operands.now }
{
    let verb = Verb::ScaledRange;
    let count = split_word(split_word(operands).rest);
    let range = range_at(names, counter, verb, operands, count.word)?;
    match lone_point(count.rest) {
        Some(place) => Ok(Entry::Asked(Question::Numbers(range, place))),
        None => Err(Wrong::Operands(verb)),
    }
}

/// A range of words, and how many printed codes are known.
#[tactic(auto, unfolding(crate::specs::Entry::look_entry))]
fn look_entry(names: &[(Name, u16)], counter: Address, operands: &[u8]) -> Result<Entry, Wrong>
    ensures { result ≡ look_entry names.now counter operands.now }
{
    let verb = Verb::CountedRange;
    let count = split_word(split_word(operands).rest);
    let range = range_at(names, counter, verb, operands, count.word)?;
    match lone_count(count.rest) {
        Some(from) => Ok(asked_data(DataQuestion::Look(range, from.get()))),
        None => Err(Wrong::Operands(verb)),
    }
}

/// What a command asks for with a number; those of scripts are read as scripts have them.
fn asked_with(command: NumberCommand, number: Count) -> Option<Entry>
    ensures { result ≡ asked_with command number }
{
    match command {
        NumberCommand::Script => None,
        NumberCommand::Trace(form) => Some(Entry::Reported(Telling::Trace(form), number)),
        NumberCommand::Profile(form) => Some(Entry::Reported(Telling::Profile(form), number)),
        NumberCommand::Drum => Some(Entry::Reported(Telling::Drum, number)),
        NumberCommand::Operate => Some(Entry::Operate(number)),
        NumberCommand::PaperData => Some(asked_data(DataQuestion::Paper(number.get()))),
    }
}

/// What was read of the operands of a command, which are wrong where that is nothing.
fn read_of(verb: Verb, read: Option<Entry>) -> Result<Entry, Wrong>
    ensures { result ≡ read_of verb read }
{
    match read {
        Some(entry) => Ok(entry),
        None => Err(Wrong::Operands(verb)),
    }
}

/// A command with a number and no more.
fn number_entry(command: NumberCommand, operands: &[u8]) -> Result<Entry, Wrong>
    ensures { result ≡ read_of (Verb.Number command)
        (option_and_then (asked_with command) (lone_number operands.now)) }
{
    let verb = Verb::Number(command);
    match lone_count(operands) {
        Some(number) => read_of(verb, asked_with(command, number)),
        None => Err(Wrong::Operands(verb)),
    }
}

/// What `help` asks for.
fn help_asked(operands: &[u8]) -> Option<Entry>
    ensures { result ≡ (if has_no_word operands.now then Some Entry.Help
        else option_map Entry.HelpOf (option_and_then (named verb_names) (lone_word operands.now))) }
{
    if has_no_word(operands) {
        return Some(Entry::Help);
    }
    let Split { word, rest } = split_word(operands);
    if !has_no_word(rest) {
        return None;
    }
    verb_named(word).map(Entry::HelpOf)
}

/// The word whose address comes after the number of a run.
fn optimum_of(
    names: &[(Name, u16)],
    counter: Address,
    form: Report,
    place: &[u8],
    limit: Count,
) -> Result<Entry, Wrong>
    ensures { result ≡ optimum_of names.now counter form place.now limit }
{
    let place = split_word(place);
    let word = address_at(names, counter, LineWord::Second, place.word)?;
    if has_no_word(place.rest) {
        Ok(Entry::Reported(Telling::OptimumOf(form, word), limit))
    } else {
        Err(Wrong::Operands(Verb::NumberAddress(form)))
    }
}

/// A run of which optima are reported: those with most to gain, or one word's.
#[tactic(auto, unfolding(crate::specs::Entry::optimum_entry))]
fn optimum_entry(
    names: &[(Name, u16)],
    counter: Address,
    form: Report,
    operands: &[u8],
) -> Result<Entry, Wrong>
    ensures { result ≡ optimum_entry names.now counter form operands.now }
{
    let number = split_word(operands);
    let Some(limit) = lone_count(number.word) else {
        return Err(Wrong::Operands(Verb::NumberAddress(form)));
    };
    if has_no_word(number.rest) {
        return Ok(Entry::Reported(Telling::Optimum(form), limit));
    }
    optimum_of(names, counter, form, number.rest, limit)
}

/// A run that ends with the order that meets a condition as often as is waited for.
#[tactic(auto, unfolding(crate::specs::Entry::run_entry))]
fn run_entry(names: &[(Name, u16)], counter: Address, operands: &[u8]) -> Result<Entry, Wrong>
    ensures { result ≡ run_entry names.now counter operands.now }
{
    let number = split_word(operands);
    let Some(limit) = lone_count(number.word) else {
        return Err(Wrong::Operands(Verb::Run));
    };
    let until = split_word(number.rest);
    if until.word != b"until".as_slice() {
        return Err(Wrong::Operands(Verb::Run));
    }
    Ok(Entry::Until(until_at(names, counter, until.rest)?, limit))
}

/// To the first or the last order that meets a condition.
fn to_sought(
    names: &[(Name, u16)],
    counter: Address,
    which: Which,
    operands: &[u8],
) -> Result<Entry, Wrong>
    ensures { result ≡ to_sought names.now counter which operands.now }
{
    let condition = condition_at(names, counter, Verb::To, LineWord::Second, operands)?;
    Ok(Entry::To(Way::Sought(which, condition), RecordForm::Lines))
}

/// To the beginning of an order.
#[tactic(auto, unfolding(crate::specs::Entry::to_entry))]
fn to_entry(names: &[(Name, u16)], counter: Address, operands: &[u8]) -> Result<Entry, Wrong>
    ensures { result ≡ to_entry names.now counter operands.now }
{
    let Split { word, rest } = split_word(operands);
    if word == b"first".as_slice() {
        return to_sought(names, counter, Which::First, rest);
    }
    if word == b"last".as_slice() {
        return to_sought(names, counter, Which::Last, rest);
    }
    match lone_count(operands) {
        Some(order) => Ok(Entry::To(Way::Order(order), RecordForm::Lines)),
        None => Err(Wrong::Operands(Verb::To)),
    }
}

/// What a command asks for by itself; those of scripts are read as scripts have them.
fn asked_alone(command: LoneCommand) -> Option<Entry>
    ensures { result ≡ asked_alone command }
{
    match command {
        LoneCommand::Script | LoneCommand::ScriptQuestion => None,
        LoneCommand::Paper => Some(Entry::Asked(Question::Paper)),
        LoneCommand::Rules => Some(Entry::Asked(Question::Rules)),
        LoneCommand::Labels => Some(Entry::Asked(Question::Labels)),
        LoneCommand::Live => Some(Entry::Asked(Question::Live)),
        LoneCommand::Commands => Some(Entry::Asked(Question::Commands)),
        LoneCommand::PanelData => Some(asked_data(DataQuestion::Panel)),
        LoneCommand::CommandsData => Some(asked_data(DataQuestion::Commands)),
        LoneCommand::OperationsData => Some(asked_data(DataQuestion::Operations)),
        LoneCommand::FaultsData => Some(asked_data(DataQuestion::Faults)),
        LoneCommand::StateData => Some(asked_data(DataQuestion::State)),
        LoneCommand::LabelsData => Some(asked_data(DataQuestion::Labels)),
        LoneCommand::RulesData => Some(asked_data(DataQuestion::Rules)),
        LoneCommand::TapeData => Some(asked_data(DataQuestion::Tape)),
        LoneCommand::SourceData => Some(asked_data(DataQuestion::Source)),
        LoneCommand::Transcript => Some(Entry::Transcript),
        LoneCommand::New => Some(Entry::New),
    }
}

/// A command that takes no operand.
fn lone_entry(command: LoneCommand, operands: &[u8]) -> Result<Entry, Wrong>
    ensures { result ≡ read_of (Verb.Lone command)
        (if has_no_word operands.now then asked_alone command else None) }
{
    let verb = Verb::Lone(command);
    if has_no_word(operands) {
        read_of(verb, asked_alone(command))
    } else {
        Err(Wrong::Operands(verb))
    }
}

/// A command with its operands, by what comes after its name, in the forms that scripts do not have.
#[tactic(auto, unfolding(crate::specs::Entry::entry_by))]
fn entry_by(
    names: &[(Name, u16)],
    counter: Address,
    verb: Verb,
    operands: &[u8],
) -> Result<Entry, Wrong>
    ensures { result ≡ entry_by names.now counter operands.now verb }
{
    match verb {
        Verb::Lone(command) => lone_entry(command, operands),
        Verb::Address(command) => address_entry(names, counter, command, operands),
        Verb::Number(command) => number_entry(command, operands),
        Verb::NumberAddress(form) => optimum_entry(names, counter, form, operands),
        Verb::Run => run_entry(names, counter, operands),
        Verb::To => to_entry(names, counter, operands),
        Verb::Range(command) => range_entry(names, counter, command, operands),
        Verb::ScaledRange => numbers_entry(names, counter, operands),
        Verb::CountedRange => look_entry(names, counter, operands),
        Verb::Word => put_entry(names, counter, operands),
        Verb::Command => read_of(verb, help_asked(operands)),
        Verb::Text
        | Verb::Key
        | Verb::Source
        | Verb::File
        | Verb::Moment
        | Verb::Line
        | Verb::End => Err(Wrong::Operands(verb)),
    }
}

/// Whether a report is for programs.
fn is_records(report: Report) -> bool
    ensures { result ≡ is_records report }
{
    matches!(report, Report::Records(_))
}

/// Whether what is shown is for programs.
fn is_data(question: &Question) -> bool
    ensures { result ≡ is_data question.now }
{
    matches!(question, Question::Data(_, _))
}

/// Whether the reply to what is asked for is for programs.
fn is_for_programs(entry: &Entry) -> bool
    ensures { result ≡ is_for_programs entry.now }
{
    match entry {
        Entry::Asked(question) => is_data(question),
        Entry::Reported(telling, _) => is_records(telling.form()),
        Entry::To(_, _) => true,
        _ => false,
    }
}

/// Whether a report has objects of JSON.
fn is_objects(report: Report) -> bool
    ensures { result ≡ is_objects report }
{
    matches!(report, Report::Records(RecordForm::Objects))
}

/// Whether the reply to what is asked for has objects of JSON.
pub fn has_objects(entry: &Entry) -> bool
    ensures { result ≡ has_objects entry.now }
{
    match entry {
        Entry::Asked(Question::Data(_, RecordForm::Objects)) | Entry::To(_, RecordForm::Objects) =>
            true,
        Entry::Reported(telling, _) => is_objects(telling.form()),
        _ => false,
    }
}

/// A report, one for programs as objects of JSON.
fn report_as_objects(report: Report) -> Report
    ensures { result ≡ report_as_objects report }
{
    match report {
        Report::Records(_) => Report::Records(RecordForm::Objects),
        Report::Columns => Report::Columns,
    }
}

/// How a run is reported, to programs by objects of JSON.
fn telling_as_objects(telling: Telling) -> Telling
    ensures { result ≡ telling_as_objects telling }
{
    match telling {
        Telling::Trace(report) => Telling::Trace(report_as_objects(report)),
        Telling::Profile(report) => Telling::Profile(report_as_objects(report)),
        Telling::Drum => Telling::Drum,
        Telling::Optimum(report) => Telling::Optimum(report_as_objects(report)),
        Telling::OptimumOf(report, word) => { Telling::OptimumOf(report_as_objects(report), word) }
    }
}

/// What is shown, to programs as objects of JSON.
fn question_as_objects(question: Question) -> Question
    ensures { result ≡ question_as_objects question }
{
    match question {
        Question::Data(asked, _) => Question::Data(asked, RecordForm::Objects),
        other => other,
    }
}

/// What is asked for, with a reply for programs as objects of JSON.
fn as_objects(entry: Entry) -> Entry
    ensures { result ≡ as_objects entry }
{
    match entry {
        Entry::Asked(question) => Entry::Asked(question_as_objects(question)),
        Entry::Reported(telling, limit) => Entry::Reported(telling_as_objects(telling), limit),
        Entry::To(way, _) => Entry::To(way, RecordForm::Objects),
        other => other,
    }
}

/// What is asked for with replies for programs in a form.
pub(crate) fn in_form(form: RecordForm, entry: Entry) -> Entry
    ensures { result ≡ in_form form entry }
{
    match form {
        RecordForm::Lines => entry,
        RecordForm::Objects => as_objects(entry),
    }
}

/// A line in the monitor's own forms.
fn plain_entry(names: &[(Name, u16)], counter: Address, line: &[u8]) -> Result<Entry, Wrong>
    ensures { result ≡ plain_entry names.now counter line.now }
{
    let Split { word, rest } = split_word(line);
    match verb_named(word) {
        Some(verb) => entry_by(names, counter, verb, rest),
        None => Err(name_wrong(word)),
    }
}

/// What is asked for by a whole line.
fn asked_by(read: Result<Entry, Wrong>) -> Entry
    ensures { result ≡ asked_by read }
{
    match read {
        Ok(entry) => entry,
        Err(wrong) => Entry::Misformed(Part::Line, wrong),
    }
}

/// Whether a line is not there, or is a command of scripts.
fn is_none_or_script(line: &[u8]) -> bool
    ensures { result ≡ (has_no_word line.now || is_some (command_of line.now)) }
{
    has_no_word(line) || asked_in(line).command.is_some()
}

/// What is asked for by a line after `json`, of which this was read; its reply is objects of JSON.
fn asked_as_objects(line: &[u8], read: Result<Entry, Wrong>) -> Entry
    ensures { result ≡ asked_as_objects line.now read }
{
    match read {
        Ok(entry) if is_for_programs(&entry) => as_objects(entry),
        Err(wrong) if !is_none_or_script(line) => Entry::Misformed(Part::AfterName, wrong),
        _ => asked_by(Err(Wrong::Operands(Verb::Line))),
    }
}

/// A command with its operands, or one that asks by another line for programs.
fn typed_by(names: &[(Name, u16)], counter: Address, verb: Verb, operands: &[u8]) -> Entry
    ensures { result ≡ typed_by names.now counter operands.now verb }
{
    match verb {
        Verb::Line => asked_as_objects(operands, plain_entry(names, counter, operands)),
        verb => asked_by(entry_by(names, counter, verb, operands)),
    }
}

/// A line that is no command of scripts.
#[tactic(auto, unfolding(crate::specs::Entry::typed_entry))]
fn typed_entry(names: &[(Name, u16)], counter: Address, line: &[u8]) -> Entry
    ensures { result ≡ typed_entry names.now counter line.now }
{
    let Split { word, rest } = split_word(line);
    match verb_named(word) {
        Some(verb) => typed_by(names, counter, verb, rest),
        None => asked_by(Err(name_wrong(word))),
    }
}

/// What a line asks for: a command of scripts, or one of the monitor.
fn typed_line(names: &[(Name, u16)], counter: Address, line: &[u8]) -> Entry
    ensures { result ≡ option_map_or Entry.Script (command_of line.now)
        (typed_entry names.now counter line.now) }
{
    let Asked { command, text: _ } = asked_in(line);
    match command {
        Some(command) => Entry::Script(command),
        None => typed_entry(names, counter, line),
    }
}

/// Whether nothing is asked by a line.
fn stands_for_itself(line: &LineBytes) -> bool
    ensures { result ≡ (line.now.longer || line.now.blank || is_comment line.now.front) }
{
    line.is_longer() || line.has_no_word() || is_comment(line.front())
}

/// What a line asks for where no source is open, with the names of the last source and the counter.
#[tactic(auto, unfolding(crate::specs::Entry::entry_of))]
pub fn entry_of(names: &[(Name, u16)], counter: Address, line: &LineBytes) -> Entry
    ensures { result ≡ entry_of names.now counter line.now }
{
    if stands_for_itself(line) {
        return Entry::Itself;
    }
    typed_line(names, counter, line.front())
}

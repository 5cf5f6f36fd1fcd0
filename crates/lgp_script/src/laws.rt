//! What follows from the definitions, each law as the contract of a function that does nothing.

ghost use Rattle.std.specs.Prelude.{◌≡◌, ◌+◌, IsTrue, false, ℕ, List, None, Some, [], length};
ghost use Rattle.lgp_assembler.specs.Image.{faults_of, image_of};
ghost use Rattle.lgp_loader.specs.BlockLoading.{longest_load};
ghost use Rattle.lgp_loader.specs.LoadedOver.{IsLoadedOver};
ghost use Rattle.lgp_loader.specs.Loading.{loading_cost, loading_stopped};
ghost use Rattle.lgp_word.specs.Drum.{blank_words};
ghost use Rattle.lgp_table.specs.State.{opening};
ghost use Rattle.lgp_script.specs.Files.{loaded_new};
ghost use Rattle.lgp_command.specs.Command.{command_of};
ghost use Rattle.lgp_script.specs.LoadCommand.{replied_to_load};
ghost use Rattle.lgp_script.specs.CommandLaws.{LinesAreAnswered};
ghost use Rattle.lgp_command.specs.declared.command.Command.{Command};
ghost use Rattle.lgp_script.specs.Script.{only_asks, opens_source, replied_to, script_language};
ghost use Rattle.lgp_script.specs.LabState.{LabState};

use std::alloc::Allocator;

/// A script's `load` leaves exactly the words of the last source that assembled over what was there, and the clock has gone on by
/// what all activities of loading cost; where it would pass its end, that is reported instead.
#[tactic(auto, using(crate::proofs::LoadLaws::load_laws))]
pub fn load_leaves_the_source<A: Allocator>()
    ensures words { (lab : LabState) → (source : List ℕ)
        → lab.source ≡ Some source → faults_of source ≡ []
        → length lab.debugger.state.core.words ≡ 4096
        → loading_stopped lab.debugger.state (longest_load (image_of source)) ≡ None
        → IsLoadedOver 22 lab.debugger.state.core.words
        (replied_to_load lab).after.debugger.state.core.words (image_of source).cells }
    ensures time { (lab : LabState) → (source : List ℕ)
        → lab.source ≡ Some source
        → loading_stopped lab.debugger.state (longest_load (image_of source)) ≡ None
        → (replied_to_load lab).after.debugger.state.clock
        ≡ lab.debugger.state.clock
        + loading_cost lab.debugger.state (longest_load (image_of source)) }
{}

/// What the program's `run` has loaded before the first order of a source without faults: exactly the source's words on a drum
/// without any, and the clock at what all activities of loading cost.
#[tactic(auto, using(crate::proofs::LoadLaws::run_laws))]
pub fn run_begins_with_the_source()
    ensures words { (source : List ℕ) → faults_of source ≡ []
        → IsLoadedOver 22 blank_words (loaded_new source).core.words (image_of source).cells }
    ensures time { (source : List ℕ) → (loaded_new source).clock
        ≡ loading_cost (opening blank_words) (longest_load (image_of source)) }
{}

/// A line of a script that only asks leaves the laboratory in the state in which it was. So a script leads to the same place without such
/// lines.
#[tactic(auto, using(crate::proofs::AskingLaws::unmoved))]
pub fn questions_change_nothing<A: Allocator>()
    ensures { (lab : LabState) → (line : List ℕ) → lab.opened ≡ None
        → IsTrue (only_asks (command_of line))
        → script_language.after lab line ≡ lab }
{}

/// A line that says a command is answered as the command, where no source is open.
#[tactic(auto, using(crate::proofs::CommandLaws::lines_answered))]
pub fn lines_are_answered_as_commands<A: Allocator>()
    ensures { LinesAreAnswered }
{}

/// After every command but `source` the same source is open, or none.
#[tactic(auto, using(crate::proofs::OpenedLaws::opened_stays))]
pub fn commands_open_no_source<A: Allocator>()
    ensures { (lab : LabState) → (command : Command) → (text : List ℕ)
        → opens_source command ≡ false → (replied_to lab command text).after.opened ≡ lab.opened }
{}

//! What follows from the definitions, each law as the contract of a function that does nothing.

ghost use Rattle.std.specs.Prelude.{◌≡◌, ◌+◌, ◌<◌, ◌≤◌, ℕ, List, [], IfSome, None, Option, false, length, true};
ghost use Rattle.std.specs.List.{count_by, list_all};
ghost use Rattle.lgp_assembler.specs.Image.{faults_of, image_of};
ghost use Rattle.lgp_assembler.specs.Parts.{AreProgramCells, HaveOwnPlaces, ImageParts};
ghost use Rattle.lgp_loader.specs.BlockLoading.{block_load, cut_load, left_by_blocks, longest_load};
ghost use Rattle.lgp_loader.specs.Cutting.{StandApart, are_blocks, cells_of, is_cutting, longest_blocks, pieces_of};
ghost use Rattle.lgp_loader.specs.LoadedOver.{IsLoadedOver};
ghost use Rattle.lgp_loader.specs.Loading.{TapeLoad, begun, loaded, loading_cost, loading_stopped};
ghost use Rattle.lgp_loader.specs.SingleLoading.{left_by_single, single_load};
ghost use Rattle.lgp_machine.specs.Answers.{clock_end};
ghost use Rattle.lgp_table.specs.After.{after, total_cost};
ghost use Rattle.lgp_table.specs.Interleaving.{after_events, at_boundary};
ghost use Rattle.lgp_table.specs.State.{State};
ghost use Rattle.lgp_table.specs.SwitchPresses.{is_time_or_switch, is_word_time, looks_at_switches, with_switches};
ghost use Rattle.lgp_table.specs.declared.panel.Switches.{Switches};
ghost use Rattle.lgp_word.specs.Address.{IsAddress};

use lgp_table::Event;

/// The longest blocks of cells are blocks, and have these cells one after another, and no two neighbours would together be one
/// block; the pieces of each cutting are blocks and have these cells too.
#[tactic(auto, using(crate::proofs::Cuts::cutting_laws))]
pub fn cuttings()
    ensures longest { (cells : List (ℕ × ℕ)) → are_blocks (longest_blocks cells) ≡ true }
    ensures longest_cells { (cells : List (ℕ × ℕ))
        → cells_of (longest_blocks cells) ≡ cells }
    ensures longest_apart { (cells : List (ℕ × ℕ)) → StandApart (longest_blocks cells) }
    ensures pieces { (counts : List ℕ) → (cells : List (ℕ × ℕ))
        → is_cutting counts cells ≡ true → are_blocks (pieces_of counts cells) ≡ true }
    ensures piece_cells { (counts : List ℕ) → (cells : List (ℕ × ℕ))
        → is_cutting counts cells ≡ true → cells_of (pieces_of counts cells) ≡ cells }
{}

/// What loading leaves, in whatever blocks: the words of all blocks over what was on the drum, and the loader at its 22 places,
/// with the order that would store a word after the last block in its store cell, no count left, and the end word in its end
/// cell. The accumulator and the instruction register hold the end word; the tape is read to its end and the reader is off;
/// nothing has been printed. Without a start the machine has stopped, with one it goes there. Since the loader was started, the
/// clock has gone on by the sum of what its orders cost.
#[tactic(auto, using(crate::proofs::BlockLaw::block_laws))]
pub fn loading()
    ensures left { (s : State) → (blocks : List (List (ℕ × ℕ))) → (start : Option ℕ)
        → length s.core.words ≡ 4096
        → are_blocks blocks ≡ true → AreProgramCells (cells_of blocks)
        → length (cells_of blocks) ≤ 4096 → IfSome start IsAddress
        → loaded s (block_load blocks start)
        ≡ left_by_blocks s blocks start (loaded s (block_load blocks start)).clock }
    ensures time { (s : State) → (load : TapeLoad)
        → (loaded s load).clock ≡ (begun s load).clock + total_cost (begun s load) load.orders }
{}

/// What loading cell by cell leaves: the program's words over what was on the drum, and the loader at its ten places, with the
/// order that stored the last cell in its store cell and the end word in its end cell. All else is as `loading` says it.
#[tactic(auto, using(crate::proofs::SingleLaw::single_loading_laws))]
pub fn single_loading()
    ensures left { (s : State) → (image : ImageParts) → length s.core.words ≡ 4096
        → AreProgramCells image.cells → IfSome image.start IsAddress
        → loaded s (single_load image)
        ≡ left_by_single s image (loaded s (single_load image)).clock }
{}

/// What loading leaves, in the words of the program, whose cells have places of their own: each cell's word at its place, and
/// everywhere else, but for the loader's own 22 or ten places, the word that was there before. Whatever is loaded, the clock has gone on by
/// the sum of what all activities cost: the stores of the loader's words, the jump that starts it, and its orders.
#[tactic(auto, using(crate::proofs::Program::loading_clock))]
pub fn program_is_loaded()
    ensures blocks { (s : State) → (blocks : List (List (ℕ × ℕ))) → (start : Option ℕ)
        → length s.core.words ≡ 4096
        → are_blocks blocks ≡ true → AreProgramCells (cells_of blocks)
        → HaveOwnPlaces (cells_of blocks) → IfSome start IsAddress
        → IsLoadedOver 22 s.core.words (loaded s (block_load blocks start)).core.words
        (cells_of blocks) }
    ensures single { (s : State) → (image : ImageParts) → length s.core.words ≡ 4096
        → AreProgramCells image.cells → HaveOwnPlaces image.cells → IfSome image.start IsAddress
        → IsLoadedOver 10 s.core.words (loaded s (single_load image)).core.words image.cells }
    ensures time { (s : State) → (load : TapeLoad)
        → (loaded s load).clock ≡ s.clock + loading_cost s load }
{}

/// What loading a source without faults leaves, in the longest blocks, in blocks of given lengths, and cell by cell: the word of
/// each of its cells at that cell's place, and everywhere else, but for the loader's own 22 or ten places, the word that was there
/// before.
/// Nothing is asked of the source but that it has no fault.
#[tactic(auto, using(crate::proofs::SourceLoaded::source_loaded))]
pub fn source_is_loaded()
    ensures longest { (s : State) → (source : List ℕ)
        → length s.core.words ≡ 4096 → faults_of source ≡ []
        → IsLoadedOver 22 s.core.words (loaded s (longest_load (image_of source))).core.words
        (image_of source).cells }
    ensures cut { (s : State) → (source : List ℕ) → (counts : List ℕ)
        → length s.core.words ≡ 4096 → faults_of source ≡ []
        → is_cutting counts (image_of source).cells ≡ true
        → IsLoadedOver 22 s.core.words (loaded s (cut_load (image_of source) counts)).core.words
        (image_of source).cells }
    ensures single { (s : State) → (source : List ℕ)
        → length s.core.words ≡ 4096 → faults_of source ≡ []
        → IsLoadedOver 10 s.core.words (loaded s (single_load (image_of source))).core.words
        (image_of source).cells }
{}

/// No order of either loader looks at BREAK POINT or TRANSFER CONTROL, from its start to the end word.
#[tactic(auto, using(crate::proofs::Undisturbed::blind_laws))]
pub fn blind_to_switches()
    ensures blocks { (s : State) → (blocks : List (List (ℕ × ℕ))) → (start : Option ℕ)
        → (before : ℕ) → length s.core.words ≡ 4096
        → are_blocks blocks ≡ true → AreProgramCells (cells_of blocks)
        → length (cells_of blocks) ≤ 4096 → IfSome start IsAddress
        → before < (block_load blocks start).orders
        → looks_at_switches (after (begun s (block_load blocks start)) before) ≡ false }
    ensures single { (s : State) → (image : ImageParts) → (before : ℕ)
        → length s.core.words ≡ 4096 → AreProgramCells image.cells → IfSome image.start IsAddress
        → before < (single_load image).orders
        → looks_at_switches (after (begun s (single_load image)) before) ≡ false }
{}

/// From the moment a loader has been started nobody's hand on BREAK POINT and TRANSFER CONTROL disturbs it: after as many word
/// times as its orders take, with presses of those switches anywhere between, the machine is as after an undisturbed loading,
/// but for these switches.
#[tactic(auto, using(crate::proofs::Undisturbed::undisturbed_laws))]
pub fn undisturbed()
    ensures blocks { (s : State) → (blocks : List (List (ℕ × ℕ))) → (start : Option ℕ)
        → (events : List Event) → length s.core.words ≡ 4096
        → are_blocks blocks ≡ true → AreProgramCells (cells_of blocks)
        → length (cells_of blocks) ≤ 4096 → IfSome start IsAddress
        → list_all is_time_or_switch events ≡ true
        → count_by is_word_time events
        ≡ total_cost (begun s (block_load blocks start)) (block_load blocks start).orders
        → (switches : Switches)
        × (after_events (at_boundary (begun s (block_load blocks start))) events
        ≡ at_boundary (with_switches (loaded s (block_load blocks start)) switches)) }
    ensures single { (s : State) → (image : ImageParts) → (events : List Event)
        → length s.core.words ≡ 4096
        → AreProgramCells image.cells → IfSome image.start IsAddress
        → list_all is_time_or_switch events ≡ true
        → count_by is_word_time events
        ≡ total_cost (begun s (single_load image)) (single_load image).orders
        → (switches : Switches)
        × (after_events (at_boundary (begun s (single_load image))) events
        ≡ at_boundary (with_switches (loaded s (single_load image)) switches)) }
{}

/// A loading that ends within the clock is stopped nowhere: the clock goes on by what the activities cost, so none of them passes
/// its end.
#[tactic(auto, using(crate::proofs::Stopped::loading_stops))]
pub fn stopped()
    ensures nowhere { (s : State) → (load : TapeLoad)
        → (loaded s load).clock ≤ clock_end → loading_stopped s load ≡ None }
{}

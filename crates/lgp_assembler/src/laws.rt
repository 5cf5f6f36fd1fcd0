//! Laws, for readers and proofs: functions that do nothing, and whose contracts are the laws.

ghost use Rattle.std.specs.Prelude.{◌≡◌, ℕ, IfSome, List, []};
ghost use Rattle.lgp_assembler.specs.Fields.{LineFields};
ghost use Rattle.lgp_assembler.specs.Image.{faults_of, image_of};
ghost use Rattle.lgp_assembler.specs.Laws.{FaultsFollowLines, LinesHaveCells, NamesAreFirstPlaces, PlacesCountFromOrgs};
ghost use Rattle.lgp_assembler.specs.Parts.{AreProgramCells, HaveOwnPlaces};
ghost use Rattle.lgp_word.specs.Address.{IsAddress};

/// A law, for readers and proofs: the place of an `org` line with an address is that address. The
/// place of any other line is the address of the nearest such line before it plus the words of the
/// lines between, or, with none, the words of the lines before it.
#[tactic(auto, using(crate::proofs::PlaceLaws::places_law))]
pub fn places_count_from_orgs()
    ensures { (before : List LineFields) (line : LineFields) → PlacesCountFromOrgs before line }
{}

/// A law, for readers and proofs: a name's value is the place of the first line with that label
/// that is not after the end line, and a name that no such line has as its label has no value.
#[tactic(auto, using(crate::proofs::PlaceLaws::names_law))]
pub fn names_are_first_places()
    ensures { (name : List ℕ) (before after : List LineFields)
        → NamesAreFirstPlaces name before after }
{}

/// A law, for readers and proofs: the faults of a source are those of its lines, in their order,
/// and last that of a missing end line. A line after some others adds its own fault to theirs, if
/// it has one: that of the first row of the table that holds for it. What the rows ask of the lines
/// before it is whether one of them is an end line, which labels they have, and whether one of them
/// has a word at its place.
pub fn faults_follow_lines()
    ensures { (source : List ℕ) (before : List LineFields) (line : LineFields)
        → FaultsFollowLines source before line }
{}

/// A law, for readers and proofs: in a source without faults each line with a word has its cell: the
/// word that the line means, at the line's place, and after the cells of the lines before it. There
/// are as many cells as such lines.
pub fn lines_have_cells()
    ensures { (source : List ℕ) → faults_of source ≡ [] → LinesHaveCells source }
{}

/// A law, for readers and proofs: the words of a source without faults lie at places of their own,
/// on the drum and at none of the loader's 22 places; so there are at most 4,074. Each is a word of
/// the machine, and a start is an address.
#[tactic(auto, using(crate::proofs::CellLaws::own_cells))]
pub fn cells_have_own_places()
    ensures places { (source : List ℕ) → faults_of source ≡ []
        → HaveOwnPlaces (image_of source).cells }
    ensures words { (source : List ℕ) → faults_of source ≡ []
        → AreProgramCells (image_of source).cells }
    ensures start { (source : List ℕ) → IfSome (image_of source).start IsAddress }
{}

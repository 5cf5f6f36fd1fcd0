//! Laws, for readers and proofs: functions that do nothing, and whose contracts are the laws.

ghost use Rattle.std.specs.Prelude.{◌≡◌, ℕ, List, None, Some};
ghost use Rattle.bstr.specs.Text.{lines_of};
ghost use Rattle.lgp_word.specs.Word.{IsWord};
ghost use Rattle.lgp_listing.specs.Disassembly.{disassembly};
ghost use Rattle.lgp_listing.specs.declared.reading.DumpFault.{DumpFault};
ghost use Rattle.lgp_listing.specs.Dump.{first_fault};
ghost use Rattle.lgp_listing.specs.Laws.{AreSound, AssemblesTo, IsFormFault, IsOrderFault, one_line};

/// A law, for readers and proofs: a source of one space and the disassembly of a word, and then of
/// a line ` end`, has no fault and exactly that word, at 0000. It holds for every word.
pub fn each_word_assembles()
    ensures { (word : ℕ) → IsWord word → AssemblesTo (one_line (disassembly word)) word }
{}

/// A law, for readers and proofs: all lines before the first fault of a dump are in form, with
/// addresses that go up, and so are all lines of a text without a fault. A line that is a fault of
/// form is no line of a dump. A line that is a fault of order is one, but its address is not above
/// that of the line before it.
#[tactic(auto, using(crate::proofs::FaultLaws::fault_laws))]
pub fn first_faults_are_first()
    ensures form { (text : List ℕ) (number : ℕ) → first_fault text ≡ Some (DumpFault.Form number)
        → IsFormFault text number }
    ensures order { (text : List ℕ) (number : ℕ) → first_fault text ≡ Some (DumpFault.Order number)
        → IsOrderFault text number }
    ensures none { (text : List ℕ) → first_fault text ≡ None → AreSound 0 (lines_of text) }
{}

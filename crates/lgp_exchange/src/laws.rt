//! What follows from the definitions, each law as the contract of a function that does nothing.

ghost use Rattle.std.specs.Prelude.{◌≡◌, ℕ, Ok, Some, None, List, All, true, flat_map};
ghost use Rattle.std.specs.List.{list_all};
ghost use Rattle.lgp_flexo.specs.Archive.{code_of_archived, codes_of_archive};
ghost use Rattle.lgp_flexo.specs.Code.{IsCode};
ghost use Rattle.lgp_exchange.specs.ArchiveText.{archived_tape};
ghost use Rattle.lgp_exchange.specs.TapeBytes.{first_no_code};
ghost use Rattle.lgp_listing.specs.Dump.{IsDrum};
ghost use Rattle.lgp_exchange.specs.Deposits.{deposits_of, shown_words};
ghost use Rattle.lgp_exchange.specs.Examined.{IsReadAs};
ghost use Rattle.lgp_exchange.specs.Paper.{is_plain, paper_of, plain_text, sign_struck};

/// A tape that is written as archives have it is read as these very codes; and codes are bytes of which none is refused.
#[tactic(auto, using(crate::proofs::Archives::archive_reads_back, crate::proofs::Bytes::codes_none))]
pub fn tapes_read_back()
    ensures archive { (tape : List ℕ) → All IsCode tape
        → codes_of_archive (archived_tape tape) ≡ Ok tape }
    ensures bytes { (tape : List ℕ) → All IsCode tape → first_no_code tape ≡ None }
{}

/// The words of each drum are read from its deposits, and from what SIMH shows of it.
pub fn drums_read_back()
    ensures deposits { (words : List ℕ) → IsDrum words → IsReadAs (deposits_of words) words }
    ensures shown { (words : List ℕ) → IsDrum words → IsReadAs (shown_words words) words }
{}

/// An upper sign of the paper is one that the form of archives reads as the code that struck it.
pub fn upper_signs_are_read()
    ensures { (code sign : ℕ) → IsCode code → sign_struck (true, code) ≡ Some sign
        → code_of_archived sign ≡ Some code }
{}

/// Printed codes that have a sign, without a shift, are shown as in a tape's text, with a line feed for each carriage return.
pub fn plain_prints()
    ensures { (tape : List ℕ) → All IsCode tape → list_all is_plain tape ≡ true
        → paper_of tape ≡ flat_map plain_text tape }
{}

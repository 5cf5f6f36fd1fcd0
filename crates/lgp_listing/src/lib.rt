//! Texts that read back: the disassembly of a word, the listing of a source and the dump of a drum.
#![tactic(auto)]

pub use disassembly::disassemble;
pub use dumping::{DrumWords, dump, push_cell_line, push_dump};
pub use laws::{each_word_assembles, first_faults_are_first};
pub use listed::{listing, listing_from_image};
pub use reading::{DumpFault, read_dump};

mod disassembly;
mod dumping;
mod laws;
mod listed;
mod reading;

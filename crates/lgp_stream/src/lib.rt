//! A text answered line by line while it is read, in any language of lines, also in one whose lines stand for lines of another one,
//! with a transcript in that one.
#![tactic(auto)]

pub use feed::{Failed, Feed, FeedOf};
pub use line::{FirstLine, LINE_LIMIT, LineBytes, first_line};
pub use line_reader::{CHUNK, LineReader};
pub use recorder::Recorder;
pub use sink::{Sink, SinkOf};
pub use stream::{Answers, StreamFault, is_question, run_text, write_whole};
pub use words::{Split, has_no_word, split_word, without_spaces};

mod feed;
pub mod laws;
mod line;
mod line_reader;
mod recorder;
mod sink;
mod stream;
mod tally;
mod words;

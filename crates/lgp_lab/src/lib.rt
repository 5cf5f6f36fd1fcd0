//! The LGP-30 laboratory: scripts, files, and the words of the command line.
#![tactic(auto)]

pub use lgp_script::{READS, asm_file, batch_part, run_file, run_script, tape_file};
pub use lgp_stream::{Failed, Feed, FeedOf, Sink, SinkOf, StreamFault as LabFault};
pub use lgp_task::{FileName, FileNames, Task, TaskFault, task_of};
pub use tasks::{
    FileFault, Folder, Job, NotOpened, WordFault, obey, perform, refuse, refuse_unread,
    refuse_words, run_batch, status_of, work, work_on_file,
};

mod tasks;

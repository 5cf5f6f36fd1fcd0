//! What programs ask of the laboratory, as records of fields.
#![tactic(auto)]

pub use account_data::{AccountRecords, push_account_data};
pub use cost_data::push_cost_data;
pub use labels_data::{push_labels_data, push_rules_data};
pub use optimum_data::{push_optimum_data, push_word_optimum_data};
pub use paper_data::{push_printed_data, push_tape_data};
pub use profile_data::push_profile_data;
pub use show_data::push_shown;
pub use source_data::push_source_data;
pub use state_data::{push_panel_data, push_state_data};
pub use way::{state_sentence, way_sentence};
pub use why_data::push_why_data;

mod account_data;
mod cost_data;
mod labels_data;
pub mod laws;
mod optimum_data;
mod paper_data;
mod profile_data;
mod show_data;
mod source_data;
mod state_data;
mod way;
mod why_data;
mod words;

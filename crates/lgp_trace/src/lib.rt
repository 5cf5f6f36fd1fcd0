//! Accounts of activities: what each order did, how long each of its phases took, and what it found and left on the drum.
#![tactic(auto)]

mod account;
mod account_lines;
mod columns;
mod draw;
mod drum_rows;
mod labels;
pub mod laws;
mod origin_lines;
mod phases;
mod phrases;
mod profile;
mod profile_lines;
mod runs;
mod trace;

pub use account::{Account, Begun, Found, Operand};
pub use account_lines::{
    push_account, push_account_details, push_account_line, push_heading, push_number, push_place,
    push_place_column,
};
pub use columns::{push_copies, push_spaced, push_wide};
pub use draw::draw_run;
pub use drum_rows::{push_drum, push_rows_begun, push_rows_ended};
pub use labels::{Labels, NoLabels};
pub use origin_lines::{order_origin, push_origin_lines, push_reported, push_why, push_why_line};
pub use phases::Phases;
pub use profile::Profile;
pub use profile_lines::{
    Dear, Places, better_after, push_places, push_profile, push_share, push_totals,
};
pub use runs::profile_run;
pub use trace::{Accounts, InColumns, trace_run};

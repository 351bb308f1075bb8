//! Laws of whole runs that no code calls: when copies agree with their owners again, how far they lag where nothing is
//! cut, and what the formats have in common.
//!
//! # Choices
//!
//! - A quiet round's losses and cuts are those of its records, so the law holds too in a scenario with losses, where by
//!   chance none came for so many rounds.
//! - `uncut_runs_are_best` takes any mode and budget beside the uncut run, also a budget that no scenario may have.
#![tactic(auto)]

mod laws;
mod witnesses;

pub use laws::{
    ample_budgets_cut_nothing, exchanges_make_fresh, fresh_copies_stay, paths_make_fresh,
    quiet_rings_heal, staleness_is_bounded, the_format_has_no_part, uncut_copies_are_states,
    uncut_exchanges_hand_on, uncut_modes_are_alike, uncut_paths_catch_up, uncut_runs_are_best,
    unforgetful_runs_leave_nothing_over,
};
pub use witnesses::{exchanges_come_whole, paths_lead_on, rings_are_lawful, rings_grow_quiet};

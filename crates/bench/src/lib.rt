//! The front of the library: from a scenario's bytes to those of its report and its trace, or of the comparison
//! of the modes; and simulations, round by round, over tables that have their entries themselves.
#![tactic(auto)]

mod entry_histories;

pub use entry_histories::EntryHistories;
use node_table::NodeTable;
pub use run_laws::{
    ample_budgets_cut_nothing, exchanges_make_fresh, fresh_copies_stay, paths_make_fresh,
    quiet_rings_heal, staleness_is_bounded, the_format_has_no_part, uncut_copies_are_states,
    uncut_exchanges_hand_on, uncut_modes_are_alike, uncut_paths_catch_up, uncut_runs_are_best,
    unforgetful_runs_leave_nothing_over,
};
pub use runs::{check_input, compare, read_all, run};
pub use simulation::{Round, every_run_is_sound};
pub use workers::{FreeGate, Gate};

/// A simulation over tables with entries.
pub type Sim = simulation::Sim<NodeTable, EntryHistories>;

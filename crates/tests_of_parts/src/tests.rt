//! The modules of tests, and what they share.

mod byte_ends;
mod comparing;
mod deltas;
mod exchange_lists;
mod exchanges;
mod generations;
mod owner_entries;
mod planned_rounds;
mod played_lists;
mod predecessors;
mod printed_names;
mod random_words;
mod records;
mod schedules;
mod small_scenarios;
mod stale_copies;
mod table_fixtures;
mod tables;
mod word_tables;
mod written_lines;

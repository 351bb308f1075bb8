//! Boards of tables with entries.

use node_table::NodeTable;

pub(crate) type Board = board::Board<NodeTable>;

pub(crate) type Seat = board::Seat<NodeTable>;

pub(crate) type Hold = board::Hold<NodeTable>;

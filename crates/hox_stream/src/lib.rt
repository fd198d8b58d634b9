//! Runs a network between sources and sinks of tokens, in lines, columns or frames, in bounded memory.
#![tactic(auto)]

mod cutting;
mod exits;
mod finish;
mod gathering;
mod inlet;
mod lane;
mod opening;
mod outlet;
mod placing;
mod pouring;
mod rows;
mod serving;
mod starting;
mod streaming;
mod table;
mod tabling;
mod telling;
mod watching;

pub use cutting::{LONGEST_RECORD, Refusal};
pub use exits::Exits;
pub use finish::StreamFinish;
pub use inlet::Inlet;
pub use lane::Lane;
pub use outlet::Outlet;
pub use serving::{EndedStream, LaidEnds, LaidOut, LaidTable, serve};
pub use starting::{NameFault, OpenStream, StreamFault, open_stream};
pub use table::{MOST_AHEAD, TableOutlet};
pub use watching::{Fill, Moved, NoOnlooker, Onlooker};

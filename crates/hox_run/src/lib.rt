//! Runs a described network on tokens from files, and reports its streams.
#![tactic(auto)]

mod cut;
mod ended;
mod files;
mod judging;
mod notes;
mod progress;
mod running;
mod serving;
mod shown;
mod telling;

pub use files::StreamFile;
pub use notes::{Notes, SourceNote};
pub use progress::{ProgressReceiver, Silent, SoFar};
pub use running::execute;
pub use serving::serve;
pub use shown::{ChannelAs, WantedRun, WantedStreams};
pub use telling::Told;

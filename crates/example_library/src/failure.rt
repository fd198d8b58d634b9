//! Why this program fails.
use kpn_builder::TextFault;
use kpn_net::NetFault;
use std::alloc::AllocError;
use thiserror::Error;

#[derive(Debug, Drop, Error)]
pub(crate) enum Failure {
    #[error("out of memory")]
    Memory(#[from] AllocError),
    #[error("the network has no text: {0}")]
    Text(#[from] TextFault),
    #[error("the network is refused: {0}")]
    Net(#[from] NetFault),
    #[error("the network was not run")]
    Run,
    #[error("the clock could not be read")]
    Clock,
}

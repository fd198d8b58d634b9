//! The engine as a static library for C and all languages that call C. Manual: `embedding/c/hoxburen.h`.
//!
//! No export has a `requires`: each checks everything except the memory that callers pass, and answers with a
//! number. The contracts speak of the flow that a handle keeps.
#![tactic(auto)]

mod handle;
mod looking;
mod moving;
mod opening;
mod parts;
mod slices;
mod texts;

//! Pictures of networks in the language of Graphviz: of a description, or after a run.
#![tactic(auto)]

mod caption;
mod edges;
mod looks;
mod nodes;
mod picture;
mod points;
mod rows;
mod styles;
mod titles;

pub use kpn_verdict::is_jammed;
pub use looks::Direction;
pub use nodes::below;
pub use picture::{Left, picture_of};
pub use styles::Style;
pub use titles::{Title, Titled, TitledFilters};

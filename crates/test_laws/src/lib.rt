//! Networks that meet the premises of the laws, networks worked out by hand, and changed definitions that
//! make a law false. The functions do nothing; what they ensure is proved.
#![tactic(auto)]

mod bounds;
mod changed;
mod functions;
mod premises;
mod solutions;
mod solving;
mod sufficing;
mod worked;

pub use bounds::changed_bounds;
pub use changed::changed_definitions;
pub use functions::{changed_functions, worked_functions};
pub use premises::{parks_case_meets_the_premises, standard_kinds_are_lawful};
pub use solutions::{changed_solutions, worked_solutions};
pub use solving::changed_solving;
pub use sufficing::worked_room;
pub use worked::worked_networks;

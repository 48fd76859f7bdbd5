//! The step machine: one writer and any number of readers, one load or store of one word at a time.
//!
//! A list of events is any interleaving of single steps; an interrupt that stops the writer in the
//! middle of an update is a lookup between two of its steps.
#![tactic(auto)]

pub mod commands;
mod counts;
pub mod drivers;
pub mod events;
pub mod laws;
mod lookups;
mod obeying;
pub mod replies;
pub mod reports;
pub mod runs;
pub mod traces;
mod words;
pub mod worlds;

pub use commands::Command;
pub use drivers::Driver;
pub use events::Event;
pub use laws::{
    every_answer_is_remembered, every_plain_run_is_exact, every_run_is_quiet, every_run_is_safe,
    plain_commands_run_plainly,
};
pub use replies::{NextLoad, Note, Reply, Returned};
pub use reports::{Outcome, Report};
pub use runs::{drive, run};
pub use traces::{Notes, Trace};
pub use worlds::World;

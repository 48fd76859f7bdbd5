//! The files that say what a table goes through: traces of single steps, and scripts of several
//! writers and readers.
//!
//! Each of their lines has to be understood. docs/FORMATS.md has their
//! grammars.
#![tactic(auto)]

mod batch;
mod command_lines;
mod commands;
mod header;
mod laws;
mod scripts;

pub use command_lines::{CommandLines, NumberedCommand, open_trace};
pub use header::{Header, Version};
pub use laws::{script_by_its_lines, trace_by_its_lines};
pub use scripts::{MOST_WRITERS, ModuleName, ScriptLine, read_script};

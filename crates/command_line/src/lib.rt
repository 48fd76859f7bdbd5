//! The command line: from the words of a process to the job that they ask for, or to what is wrong
//! with them. It opens no file and runs no engine.
//!
//! ```text
//!     rows ---parser---> command of clap
//!                             |
//!     words --operands--> words ---> matches --arguments--> job, or fault (requests)
//! ```
//!
//! A row says all of an option: its name, its values, its help, and which others it excludes or
//! needs. The parser, the completions and the synopses of the pages are made from the rows.
#![tactic(auto)]

mod arguments;
mod operands;
mod parser;
mod requests;
mod rows;

pub use arguments::job_of;
pub use operands::with_operands;
pub use requests::{Address, Job, JobFault, Lookup, Record, Request, Run, Subcommand};

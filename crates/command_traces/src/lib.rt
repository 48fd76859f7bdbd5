//! What `trace` does: it plays a trace in the step machine, and writes what its lookups found or,
//! with `--steps`, what each of its steps did.
//!
//! An engine is generic over its reader and its writer: from the bytes of a trace to the bytes that
//! it writes. Nothing here is about listings or modules.
#![tactic(auto)]

mod step_texts;
mod steps;
mod trace;
mod trace_lines;
mod trace_texts;

pub use steps::steps_engine;
pub use trace::trace_engine;
pub use trace_texts::put_refused;

//! Histories that are recorded: from what ftrace writes of the modules of a kernel, and its listing
//! as it is read again and again, to the history of the boot.
//!
//! ```text
//!     EVENTS                                              written
//!
//!     [001] .. 7.301204: tracing_mark_write: latchsym     listing 7.301204   the whole listing
//!     [000] .. 7.360695: module_load: xfs                 change 7.360695    the lines of xfs
//!     [002] .. 9.104290: module_free: ext4                change 9.104290    gone ext4
//! ```
//!
//! A time is the event's own, so a line of a log is named by the modules that were there; what
//! they had is read after the event.
#![tactic(auto)]

mod change_texts;
mod changes;
mod event_lines;
mod events;
mod laws;
mod lines;
mod listing_texts;
mod module_lines;
mod recorder;
mod recording;

pub use events::{Event, EventKind, EventLine};
pub use laws::{
    all_modules_have_their_lines, other_modules_have_their_lines, the_module_has_its_lines,
};
pub use listing_texts::RecordedListing;
pub use module_lines::ModuleLines;
pub use recorder::{Stop, record_engine};
pub use recording::{Block, BlockPart, Recording};

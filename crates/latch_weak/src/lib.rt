//! The latch under weak memory orders, with the barriers of Linux and without each of them.
//!
//! A processor may make a store visible late, and may load a word early. The kernel's latch has six
//! orderings against that: a write barrier before and after each of the two flips of an update, the
//! dependency of a walk on the first load, and a read barrier before the second load of the
//! sequence. [`laws`] says that with these six every attempt that answers is right, and that each
//! of them is needed. [`attempts`] makes such attempts over the stores that [`recording`] gives.
//!
//! ```text
//! writer   stores 1, 2, 3 ..             one order: a moment is a number of stores
//! reader   view: for each word the least moment that a load of it may still show
//!          load: a moment from there on; the view then has what that store was ordered after
//! ```
//!
//! docs/WEAK_MEMORY.md names the places in Linux and draws what goes wrong without each ordering.
//! Nothing here runs in the built table, whose steps are sequentially consistent.
#![tactic(auto)]

pub mod attempts;
pub mod barriers;
pub mod laws;
pub mod recording;

pub use attempts::{Glance, LoadSchedule, Moments, ReaderView};
pub use barriers::Barriers;
pub use laws::{every_attempt_is_right, generations_never_fall, own_processor_returns};
pub use recording::record;

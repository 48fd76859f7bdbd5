//! A table that follows a listing as it changes, and names each answer by the listing that stood
//! when it was given.
//!
//! Modules come and go. A [`Follower`] shows the regions of each new listing to all readers in one
//! whole update, and keeps the catalog of the listing with the generation of that update and a
//! stamp of the caller's clock. A reader gives the generation of its answer, and a sample that
//! comes out of a ring its stamp: so the symbols of the address are asked of the catalog that stood
//! then, however many came since:
//!
//! ```text
//!   generation     1        2        3
//!   stamp          40       75       90
//!   catalogs       A        B        C
//!   an answer of generation 2 ----> B, also once C is shown
//!   a sample with stamp 80 -------> B
//! ```
//!
//! A reader's generations never fall: once each has passed 2, no answer needs A, which
//! [`Follower::forget`] then drops.
//!
//! The caller may know more than a listing: a record of perf gives the exact length of a program,
//! and programs come and go between two listings. [`Follower::note`] keeps such code, with a
//! generation of its own, and it goes before the catalogs until [`Follower::note_gone`].
#![tactic(auto)]

pub mod catalogs;
pub mod code;
pub mod follower;
pub mod noted;

pub use catalogs::{Catalogs, DatedCatalog, Moment, SharedCatalog};
pub use code::NotedCode;
pub use follower::{Follower, NotShown};
pub use noted::{DatedCode, NotedCodes, NotedTime};

//! The names that a history gives are the names that a follower gives: a law, and no code.
//!
//! ```text
//!     time                    0.5              7.3              9.1
//!     a history's file        listing 0.5      change 7.3       change 9.1
//!     its listing from then   A                B                C
//!     a follower's catalogs   opened of A      opened of B      opened of C
//! ```
//!
//! So a trace that is named while it is taken, and the same trace that is named by a history
//! afterwards, have the same names.
#![tactic(auto)]

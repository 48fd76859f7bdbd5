//! Handles and views on other threads.

use crate::handles::Handle;
use crate::view_rows::CatalogView;

/// Takes a type whose values may go to another thread.
fn may_go<T: Send>() {}

/// Takes a type whose values several threads may read at once.
fn may_share<T: Send + Sync>() {}

/// C may hand a handle to another thread between two calls.
pub fn handles_may_go() {
    may_go::<Handle>();
}

/// Any number of threads may call with one view at once.
pub fn views_may_be_shared() {
    may_share::<CatalogView<'static, 'static>>();
}

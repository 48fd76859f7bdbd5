//! What has a name, in the order of names.
//!
//! A list is sorted by name once, and what has one name keeps its order, so that it lies side by
//! side as it was listed:
//!
//! ```text
//! listed:  ext4 core   nfs core   ext4 init
//! sorted:  ext4 core   ext4 init  nfs core
//! ```

ghost use Rattle.std.specs.Prelude.{◌≡◌, ℕ, List, OnOk, filter};
ghost use Rattle.std.specs.Cmp.Lexicographic.{slice_cmp};
ghost use Rattle.std.specs.List.Sorted.{IsSortedBy};
ghost use Rattle.std.specs.Ordering.{nat_cmp};
ghost use Rattle.std.specs.Str.{bytes_eq};
ghost use Rattle.modules.specs.ByName.{comes_first, IsSortedByName};

use std::alloc::{AllocError, Global};
use std::cmp::Ordering;

/// What has a name.
pub(crate) trait Named {
    /// The name, as contracts see it.
    ghost name_of: { Self → List ℕ };

    /// The name.
    fn name(&self) -> &[u8]
        ensures { result.now ≡ name_of self.now };
}

/// How the name of an element compares to this one.
fn compare_to<T: Named>(it: &T, name: &[u8]) -> Ordering
    ensures { result ≡ slice_cmp nat_cmp (T.name_of it.now) name.now }
{
    it.name().cmp(name)
}

/// The elements of this name, which lie side by side.
pub(crate) fn all_named<'i, T: Named>(index: &'i [T], name: &[u8]) -> &'i [T]
    requires { IsSortedBy (comes_first T.name_of) index.now }
    ensures { result.now ≡ filter (λ x. bytes_eq (T.name_of x) name.now) index.now }
{
    let start = index.partition_point(|it| compare_to(it, name).is_lt());
    let end = index.partition_point(|it| compare_to(it, name).is_le());
    &index[start..end]
}

/// Sorts by name, and leaves the order of what has one name.
pub(crate) fn sort_by_name<T: Named>(index: &mut Vec<T>) -> Result<(), AllocError>
    ensures { OnOk result (IsSortedByName T.name_of index.old.items index.new.items) }
{
    index.sort_by(|x, y| compare_to(x, y.name()))?;
    Ok(())
}

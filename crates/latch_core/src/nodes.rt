//! The nodes that no copy has.

ghost use Rattle.std.specs.Prelude.{◌≡◌, ◌≤◌, ◌++◌, ℕ, List, IfOk, OnOk, OnErr, vec_len};
ghost use Rattle.std.specs.Prelude.{vec_capacity};
ghost use Rattle.latch_core.specs.FreeNodes.{AreAllNodes};

use std::alloc::{AllocError, Global};

/// All nodes of a capacity, in a list that has room for all of them.
pub fn all_nodes(alloc: Global, capacity: u32) -> Result<Vec<u32>, AllocError>
    ensures all { IfOk result (λ nodes. AreAllNodes capacity nodes.items) }
    ensures room { IfOk result (λ nodes. capacity ≤ vec_capacity nodes) }
{
    let mut nodes = Vec::new(alloc);
    add_nodes(&mut nodes, 0, capacity)?;
    Ok(nodes)
}

/// Puts the nodes from `capacity` up to `more` after the free ones, in a list that then has room
/// for all nodes. With the used ones they are all nodes, if they were before.
pub fn add_nodes(free: &mut Vec<u32>, capacity: u32, more: u32) -> Result<(), AllocError>
    requires more { capacity ≤ more }
    requires fits { vec_len free.old ≤ capacity }
    ensures all { OnOk result ((used : List ℕ) → AreAllNodes capacity (free.old.items ++ used)
        → AreAllNodes more (free.new.items ++ used)) }
    ensures room { OnOk result (more ≤ vec_capacity free.new) }
    ensures unchanged { OnErr result ((free.new.items ≡ free.old.items)
        × (vec_capacity free.new ≡ vec_capacity free.old)) }
{
    free.reserve_exact(more as usize - free.len())?;
    for node in capacity..more {
        free.push_reserved(node);
    }
    Ok(())
}

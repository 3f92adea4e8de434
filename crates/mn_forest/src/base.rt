ghost use Rattle.std.specs.Prelude.{◌≡◌, ◌≤◌, ◌<◌, IfOk};
ghost use Rattle.mn_base.specs.Store.{empty_store};
ghost use Rattle.mn_page.specs.Holds.{Holds};
ghost use Rattle.mn_forest.specs.Base.{base_memory};

use mn_base::NoMemory;
use mn_space::{NodeSpace, NodeSpaces};
use std::alloc::Global;

/// The memory that so many nodes, 1 to 8, begin with: it holds the store with the empty version
/// `main` alone. NoMemory: there was no memory for it.
pub fn base_spaces(alloc: Global, nodes: u8) -> Result<NodeSpaces, NoMemory>
    requires some { 0 < nodes }
    requires few { nodes ≤ 8 }
    ensures memory { IfOk result (λ spaces. spaces ≡ base_memory nodes) }
    ensures store { IfOk result (λ spaces. Holds spaces empty_store) }
{
    let mut spaces = Vec::new(alloc);
    for node in 0..nodes {
        spaces.push(NodeSpace::base(alloc, node, nodes)?)?;
    }
    Ok(NodeSpaces::from_vec(spaces))
}

//! Where the nodes and the leaves of a tree stand.
ghost use Rattle.std.specs.Prelude.{◌≡◌, ◌<◌, ◌≤◌, ◌+◌, ◌*◌, ◌^◌};

use px_num::power;

/// The index of leaf `(x, y)` in the last level, and of pixel `(x, y)` in a grid of `2^nx` by `2^ny`.
#[tactic(auto, using(crate::proofs::PlaceLaws::index_below))]
pub fn leaf_index(nx: u32, ny: u32, x: u32, y: u32) -> usize
    requires small { (nx ≤ 9) × (ny ≤ 9) }
    requires column { x < 2 ^ nx }
    requires row { y < 2 ^ ny }
    ensures value { result ≡ x * 2 ^ ny + y }
    ensures within { result < 2 ^ (nx + ny) }
{
    x as usize * power(ny) + y as usize
}

/// The place of leaf `(x, y)` among all nodes, where node `i` of level `k` has place `2^k + i`.
pub fn leaf_place(nx: u32, ny: u32, x: u32, y: u32) -> usize
    requires small { (nx ≤ 9) × (ny ≤ 9) }
    requires column { x < 2 ^ nx }
    requires row { y < 2 ^ ny }
    ensures value { result ≡ 2 ^ (nx + ny) + (x * 2 ^ ny + y) }
    ensures within { result < 2 ^ (nx + ny + 1) }
{
    power(nx + ny) + leaf_index(nx, ny, x, y)
}

/// The place of node `index` of a level among all nodes of a tree of so many levels.
pub fn node_place(levels: u32, level: u32, index: u32) -> usize
    requires small { levels ≤ 18 }
    requires level { level ≤ levels }
    requires index { index < 2 ^ level }
    ensures value { result ≡ 2 ^ level + index }
    ensures within { result < 2 ^ (levels + 1) }
{
    power(level) + index as usize
}

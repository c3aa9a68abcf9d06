//! Whether an expression can have too many products.
ghost use Rattle.std.specs.Bool.{OnTrue};
ghost use Rattle.std.specs.Prelude.{◌≡◌, ℕ, Option, None};
ghost use Rattle.std.specs.List.{list_all};
ghost use Rattle.px_expr.specs.Postorder.{nodes_of};
ghost use Rattle.px_normal.specs.declared.cell_box.CellBox.{CellBox as AnyBox};
ghost use Rattle.px_normal.specs.Crowd.{crowd};
ghost use Rattle.px_tile.specs.Operators.{is_no_differ};

use px_expr::{Expr, Node};
use px_normal::{MAX_PRODUCTS, count_products, laws_of_live_products};

/// Whether no wanted list is past the limit, whatever the boxes of the solids are: no operator is `^`, and the whole sum
/// has at most `MAX_PRODUCTS` products. Takes no memory.
#[tactic(auto, using(crate::proofs::CrowdLemmas::never_crowded))]
pub(crate) fn is_never_crowded(expr: &Expr) -> bool
    ensures { OnTrue result ((boxes : ℕ → Option AnyBox) → crowd boxes expr.now ≡ None) }
{
    laws_of_live_products();
    has_no_differ(expr) && count_products(expr) <= u64::from(MAX_PRODUCTS)
}

/// Whether no operator of an expression is `^`.
fn has_no_differ(expr: &Expr) -> bool
    ensures { result ≡ list_all is_no_differ (nodes_of expr.now) }
{
    expr.nodes().iter().all(|node| is_no_differ(node))
}

fn is_no_differ(node: &Node) -> bool
    ensures { result ≡ is_no_differ node.now }
{
    !matches!(node, Node::Differ(..))
}

//! Building an expression from its leaves up.
ghost use Rattle.std.specs.Prelude.{◌≡◌, ◌<◌, ◌≤◌, ◌+◌, ◌-◌, ◌*◌, ◌∷◌, ◌++◌, [], length, take, vec_len, vec_capacity, OnOk, OnErr, IfErr};
ghost use Rattle.px_num.specs.Want.{want};
ghost use Rattle.px_expr.specs.Tree.{leaf, join, nesting};
ghost use Rattle.px_expr.specs.Shapes.{joined};
ghost use Rattle.px_expr.specs.Waiting.{newest, all_leaves};
ghost use Rattle.px_expr.specs.declared.node.Op.{Op as AnyOp};

use crate::{Expr, ExprFault, MAX_LEAVES, MAX_NESTING, MAX_WAITING, Node, Op};
use std::alloc::Global;
use std::marker::Model;

/// A waiting subtree: the place of its root, and how deep it is nested.
#[derive(Clone, Copy)]
struct Subtree {
    root: u16,
    nesting: u8,
}

/// Subtrees that wait to be joined. Contracts see the list of them, the newest first.
#[derive(Drop)]
pub struct ExprBuilder {
    nodes: Vec<Node>,
    waiting: Vec<Subtree>,
}

impl Model for ExprBuilder {
    ghost use Rattle.std.specs.Prelude.{List};
    ghost use Rattle.std.specs.Coded.{coded_list};
    ghost use Rattle.px_expr.specs.Tree.{Tree};
    ghost use Rattle.px_expr.specs.TreeCode.{tree_code};

    ghost Value = { List Tree };

    ghost coded = { coded_list tree_code };

    ghost use Rattle.px_expr.specs.Postorder.{trees_after};
    ghost use Rattle.px_expr.specs.Kept.{IsKept};

    ghost view = { λ builder. trees_after builder.nodes.items };

    ghost invariant = { λ builder.
        IsKept builder.nodes.items builder.waiting.items (trees_after builder.nodes.items) };
}

impl ExprBuilder {
    /// No subtree waits, and no memory is taken yet.
    pub fn new(alloc: Global) -> ExprBuilder
        ensures { result ≡ [] }
    {
        ExprBuilder {
            nodes: Vec::new(alloc),
            waiting: Vec::new(alloc),
        }
    }

    /// The number of waiting subtrees.
    #[tactic(auto, using(crate::proofs::WaitingLemmas::counts))]
    pub fn waiting(&self) -> usize
        ensures { result ≡ length self.now }
    {
        self.waiting.len()
    }

    /// A solid waits as a new subtree.
    pub fn leaf(&mut self, solid: u8) -> Result<(), ExprFault>
        ensures ok { OnOk result (self.new ≡ leaf solid ∷ self.old) }
        ensures err { OnErr result (self.new ≡ self.old) }
        ensures full { MAX_LEAVES ≤ all_leaves self.old →
            result ≡ Err (ExprFault.Leaves (MAX_LEAVES + 1)) }
        ensures memory { all_leaves self.old < MAX_LEAVES →
            IfErr result (λ fault. fault ≡ ExprFault.Memory want) }
    {
        if self.leaves() == MAX_LEAVES {
            return Err(ExprFault::Leaves {
                found: MAX_LEAVES as u32 + 1,
            });
        }
        self.nodes.reserve(1)?;
        self.waiting.reserve(1)?;
        put(&mut self.nodes, &mut self.waiting, Node::Leaf(solid), 0);
        Ok(())
    }

    /// The last two waiting subtrees become one.
    #[tactic(auto, using(crate::proofs::WaitingLemmas::counts, px_num::proofs::Basics::length))]
    pub fn join(&mut self, op: Op) -> Result<(), ExprFault>
        requires { 2 ≤ length self.old }
        ensures ok { OnOk result (self.new ≡ joined join op self.old) }
        ensures err { OnErr result (self.new ≡ self.old) }
        ensures deep { MAX_NESTING < nesting (newest (joined join op self.old)) →
            result ≡ Err (ExprFault.Nesting (MAX_NESTING + 1)) }
        ensures memory { nesting (newest (joined join op self.old)) ≤ MAX_NESTING →
            IfErr result (λ fault. fault ≡ ExprFault.Memory want) }
    {
        let nesting = self.joined_nesting();
        if nesting > MAX_NESTING {
            return Err(ExprFault::Nesting {
                found: u32::from(nesting),
            });
        }
        self.nodes.reserve(1)?;
        let (left, right) = take_two(&mut self.waiting);
        put(
            &mut self.nodes,
            &mut self.waiting,
            op.node(left.root, right.root),
            nesting,
        );
        Ok(())
    }

    /// The expression that waits alone.
    pub fn finish(self) -> Expr
        requires { length self ≡ 1 }
        ensures { self ≡ result ∷ [] }
    {
        let ExprBuilder { nodes, waiting: _ } = self;
        Expr { nodes }
    }

    /// The nesting of what the last two would become.
    #[tactic(auto, using(crate::proofs::WaitingLemmas::nesting_most, crate::proofs::WaitingLemmas::counts))]
    fn joined_nesting(&self) -> u8
        requires { 2 ≤ length self.now }
        ensures nesting { (op : AnyOp) → result ≡ nesting (newest (joined join op self.now)) }
        ensures most { result ≤ MAX_NESTING + 1 }
    {
        let (left, right) = last_two(&self.waiting);
        left.nesting.max(right.nesting) + 1
    }

    /// The number of leaves: each adds a node and a subtree, and a join a node for a subtree.
    fn leaves(&self) -> usize
        ensures { result ≡ all_leaves self.now }
    {
        (self.nodes.len() + self.waiting.len()) / 2
    }
}

/// The last two subtrees.
fn last_two(waiting: &[Subtree]) -> (Subtree, Subtree)
    requires { 2 ≤ length waiting.now }
    ensures { waiting.now ≡ take (length waiting.now - 2) waiting.now ++ result.0 ∷ result.1 ∷ [] }
{
    (waiting[waiting.len() - 2], waiting[waiting.len() - 1])
}

/// Takes the last two subtrees away.
fn take_two(waiting: &mut Vec<Subtree>) -> (Subtree, Subtree)
    requires { 2 ≤ vec_len waiting.old }
    ensures items { waiting.old.items ≡ waiting.new.items ++ result.0 ∷ result.1 ∷ [] }
    ensures room { vec_len waiting.new < vec_capacity waiting.new }
{
    let pair = last_two(waiting);
    waiting.truncate(waiting.len() - 2);
    pair
}

/// Puts a node down as the root of a new subtree, where there is room for both.
fn put(nodes: &mut Vec<Node>, waiting: &mut Vec<Subtree>, node: Node, nesting: u8)
    requires node_room { vec_len nodes.old < vec_capacity nodes.old }
    requires subtree_room { vec_len waiting.old < vec_capacity waiting.old }
    requires few { vec_len nodes.old < 2 * MAX_LEAVES - 1 }
    ensures nodes { nodes.new.items ≡ nodes.old.items ++ node ∷ [] }
    ensures waiting { waiting.new.items ≡ waiting.old.items
        ++ record { root = vec_len nodes.old; nesting = nesting } ∷ [] }
{
    let root = nodes.len() as u16;
    nodes.push(node).unwrap();
    waiting.push(Subtree { root, nesting }).unwrap();
}

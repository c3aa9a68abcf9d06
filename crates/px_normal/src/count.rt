//! The number of products, without memory.
ghost use Rattle.std.specs.Prelude.{◌≡◌, ◌≤◌, ◌+◌, ◌*◌, length, reverse};
ghost use Rattle.arrayvec.specs.ArrayVec.{array_vec_len};
ghost use Rattle.px_expr.specs.Shapes.{joined, put, CanPlace};
ghost use Rattle.px_normal.specs.Forms.{sum_of_products};
ghost use Rattle.px_normal.specs.Counting.{capped};
ghost use Rattle.px_normal.specs.FormCounts.{leaf_counts, combined_counts, counted_in, count_when};

use arrayvec::ArrayVec;
use px_expr::{Combination, Expr, MAX_WAITING, Op, Sense, Shape};

/// How many products an expression and its complement have, each at most `2^32`.
#[derive(Clone, Copy, Default)]
struct Counts {
    products: u64,
    complement: u64,
}

/// The number of products of an expression, or `2^32` where it is greater.
pub fn count_products(expr: &Expr) -> u64
    ensures { result ≡ capped (length (sum_of_products expr.now)) }
{
    let mut stack = ArrayVec::<Counts, MAX_WAITING>::new();
    for node in expr.nodes() {
        count(&mut stack, node.shape());
    }
    stack.pop().unwrap().products
}

/// Puts the counts of a shape down, in place of its sides' where it has them.
fn count(stack: &mut ArrayVec<Counts, MAX_WAITING>, shape: Shape)
    requires { CanPlace (array_vec_len stack.old) shape }
    ensures { reverse stack.new.items
        ≡ put leaf_counts combined_counts (reverse stack.old.items) shape }
{
    match shape {
        Shape::Leaf(_) => stack.push(Counts {
            products: 1,
            complement: 1,
        }),
        Shape::Join(op, ..) => combine(stack, op),
    }
}

/// The last two become one.
fn combine(stack: &mut ArrayVec<Counts, MAX_WAITING>, op: Op)
    requires two { 2 ≤ array_vec_len stack.old }
    requires few { array_vec_len stack.old ≤ MAX_WAITING }
    ensures { reverse stack.new.items ≡ joined combined_counts op (reverse stack.old.items) }
{
    let right = stack.pop().unwrap();
    let left = stack.pop().unwrap();
    stack.push(combined(op, &left, &right));
}

/// The counts of two expressions that are joined.
fn combined(op: Op, left: &Counts, right: &Counts) -> Counts
    ensures { result ≡ combined_counts op left.now right.now }
{
    let combination = op.combination();
    Counts {
        products: counted(combination, left, right),
        complement: counted(combination.complement(), left, right),
    }
}

/// How many products a combination makes of those of two sides.
fn counted(combination: Combination, left: &Counts, right: &Counts) -> u64
    ensures { result ≡ count_when combination left.now right.now }
{
    match combination {
        Combination::Both(first, second) => {
            capped_product(left.in_sense(first), right.in_sense(second))
        }
        Combination::Either(first, second) => {
            capped_sum(left.in_sense(first), right.in_sense(second))
        }
        Combination::EitherWay(sense) => capped_two(
            left.products,
            right.in_sense(sense),
            left.complement,
            right.in_sense(sense.opposite()),
        ),
    }
}

impl Counts {
    fn in_sense(&self, sense: Sense) -> u64
        ensures { result ≡ counted_in sense self.now }
    {
        match sense {
            Sense::Plain => self.products,
            Sense::Complement => self.complement,
        }
    }
}

fn capped_sum(a: u64, b: u64) -> u64
    ensures { result ≡ capped (a + b) }
{
    a.saturating_add(b).min(1 << 32)
}

fn capped_product(a: u64, b: u64) -> u64
    ensures { result ≡ capped (a * b) }
{
    a.saturating_mul(b).min(1 << 32)
}

fn capped_two(a: u64, b: u64, c: u64, d: u64) -> u64
    ensures { result ≡ capped (a * b + c * d) }
{
    capped_sum(capped_product(a, b), capped_product(c, d))
}

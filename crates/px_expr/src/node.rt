//! Operators and what they make of their sides; the nodes of an expression, and their limits.
ghost use Rattle.std.specs.Prelude.{◌≡◌};
ghost use Rattle.px_expr.specs.Cells.{combination_of, complement_of, opposite, truth_in, truth_of, truth_when};
ghost use Rattle.px_expr.specs.Shapes.{op_node, node_shape};

/// An expression has at most so many leaves (docs/SCENES.md, "Limits").
pub const MAX_LEAVES: usize = 512;

/// An expression is nested at most so deep (docs/SCENES.md, "Limits").
pub const MAX_NESTING: u8 = 64;

/// At most so many values wait in a walk over an expression's nodes: one of each level that is
/// open, and the next leaf's.
pub const MAX_WAITING: usize = MAX_NESTING as usize + 1;

/// What joins two expressions.
#[derive(Clone, Copy)]
pub enum Op {
    /// The cells of either side.
    Union,
    /// The cells of both sides.
    Meet,
    /// The cells of the left side that the right side lacks.
    Minus,
    /// The cells of exactly one side.
    Differ,
}

/// How a side is taken: as it is, or by its complement, the cells that it lacks.
#[derive(Clone, Copy)]
pub enum Sense {
    Plain,
    Complement,
}

/// What an operator makes of its two sides, or what its complement is of them.
#[derive(Clone, Copy)]
pub enum Combination {
    /// The cells of both, the left side and the right one each in its sense.
    Both(Sense, Sense),
    /// The cells of either, the left side and the right one each in its sense.
    Either(Sense, Sense),
    /// The cells of both the left side and the right one in this sense, and those of both the left
    /// side's complement and the right one in the other sense.
    EitherWay(Sense),
}

/// A leaf by the index of its solid, or an operator by the places of its left and its right side.
#[derive(Clone, Copy)]
pub enum Node {
    Leaf(u8),
    Union(u16, u16),
    Meet(u16, u16),
    Minus(u16, u16),
    Differ(u16, u16),
}

/// A node as it is read: a leaf, or an operator between the places of its sides.
#[derive(Clone, Copy)]
pub enum Shape {
    Leaf(u8),
    Join(Op, u16, u16),
}

impl Node {
    /// The node as a leaf or an operator.
    pub fn shape(self) -> Shape
        ensures { result ≡ node_shape self }
    {
        match self {
            Node::Leaf(solid) => Shape::Leaf(solid),
            Node::Union(left, right) => Shape::Join(Op::Union, left, right),
            Node::Meet(left, right) => Shape::Join(Op::Meet, left, right),
            Node::Minus(left, right) => Shape::Join(Op::Minus, left, right),
            Node::Differ(left, right) => Shape::Join(Op::Differ, left, right),
        }
    }
}

impl Op {
    /// The node that joins the nodes at two places.
    pub(crate) fn node(self, left: u16, right: u16) -> Node
        ensures { result ≡ op_node self left right }
    {
        match self {
            Op::Union => Node::Union(left, right),
            Op::Meet => Node::Meet(left, right),
            Op::Minus => Node::Minus(left, right),
            Op::Differ => Node::Differ(left, right),
        }
    }

    /// What it makes of its two sides.
    pub fn combination(self) -> Combination
        ensures { result ≡ combination_of self }
    {
        match self {
            Op::Union => Combination::Either(Sense::Plain, Sense::Plain),
            Op::Meet => Combination::Both(Sense::Plain, Sense::Plain),
            Op::Minus => Combination::Both(Sense::Plain, Sense::Complement),
            Op::Differ => Combination::EitherWay(Sense::Complement),
        }
    }

    /// Whether a cell is in the whole, by whether it is in each side.
    pub(crate) fn truth(self, left: bool, right: bool) -> bool
        ensures { result ≡ truth_of self left right }
    {
        self.combination().truth(left, right)
    }
}

impl Sense {
    /// The other sense.
    pub fn opposite(self) -> Sense
        ensures { result ≡ opposite self }
    {
        match self {
            Sense::Plain => Sense::Complement,
            Sense::Complement => Sense::Plain,
        }
    }

    /// Whether a cell is in a side that is so taken, by whether it is in the side.
    fn truth(self, side: bool) -> bool
        ensures { result ≡ truth_in self side }
    {
        match self {
            Sense::Plain => side,
            Sense::Complement => !side,
        }
    }
}

impl Combination {
    /// The cells that the combination lacks, as a combination of the same sides.
    pub fn complement(self) -> Combination
        ensures { result ≡ complement_of self }
    {
        match self {
            Combination::Both(left, right) => {
                Combination::Either(left.opposite(), right.opposite())
            }
            Combination::Either(left, right) => {
                Combination::Both(left.opposite(), right.opposite())
            }
            Combination::EitherWay(sense) => Combination::EitherWay(sense.opposite()),
        }
    }

    /// Whether a cell is in the whole, by whether it is in each side.
    pub(crate) fn truth(self, left: bool, right: bool) -> bool
        ensures { result ≡ truth_when self left right }
    {
        match self {
            Combination::Both(first, second) => first.truth(left) & second.truth(right),
            Combination::Either(first, second) => first.truth(left) | second.truth(right),
            Combination::EitherWay(sense) => {
                (left & sense.truth(right)) | (!left & sense.opposite().truth(right))
            }
        }
    }
}

use aerie_base::Comparison;

/// A part of an expression, from the loosest to the tightest.
#[derive(Clone, Copy, Debug)]
pub enum Precedence {
    /// A whole expression.
    Expr,
    /// An operand of `||`.
    Conjunction,
    /// An operand of `&&`.
    Comparison,
    /// A side of a comparison.
    Sum,
    /// A term of a sum.
    Product,
    /// A factor of a product.
    Unary,
}

/// A sign before an operand.
#[derive(Clone, Copy, Debug)]
pub enum Sign {
    /// `-` of a number.
    Minus,
    /// `!` of a truth.
    Exclamation,
}

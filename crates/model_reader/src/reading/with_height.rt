use crate::raw::RawExpr;

/// An expression, and how many of its levels stand inside one another: operators with what they take on both sides,
/// signs, and pairs of parentheses.
#[derive(Drop)]
pub struct WithHeight {
    /// The expression.
    pub expr: RawExpr,
    /// Its levels.
    pub height: usize,
}

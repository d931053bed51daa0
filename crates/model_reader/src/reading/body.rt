use crate::raw::RawStmt;
use aerie_base::List;

/// The statements of a body, or of a block in it, as far as they are read.
#[derive(Drop)]
pub struct Body {
    /// The statements in the text's order.
    pub stmts: List<RawStmt>,
    /// How many statements the body may still have, in all its blocks.
    pub spare: usize,
}

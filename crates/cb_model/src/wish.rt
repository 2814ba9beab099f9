//! What is wanted of a codebook.

/// How far apart any two codes are wanted over the columns of a codebook: at least this distance; or as far as they are over all
/// columns, or as this cap where that is less.
#[derive(Clone, Copy)]
pub enum Wish {
    Plain(u32),
    Cap(u32),
}

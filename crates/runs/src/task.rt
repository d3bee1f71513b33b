//! The multiplications of a list, each with what it needs.
use common::refusal::Refusal;
use inputs::sizes::Sizes;

/// What is asked of a multiplication.
#[derive(Drop)]
pub struct Ask<E, R> {
    pub rule: R,
    pub sizes: Sizes,
    /// The key's words, lowest first.
    pub key: Vec<u32>,
    pub base: E,
    pub draws: Vec<u8>,
    /// How many bytes of the draws are read before.
    pub mark: usize,
}

/// A multiplication of a list: what is asked, the cells and the digit words lent to it, and what
/// came of it.
#[derive(Drop)]
pub struct Task<E, R> {
    pub ask: Ask<E, R>,
    pub cells: Vec<E>,
    pub words: Vec<i32>,
    /// The mark after it.
    pub mark: usize,
    pub outcome: Option<Result<E, Refusal>>,
}

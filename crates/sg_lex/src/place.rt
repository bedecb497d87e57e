// Where a token of an expanded configuration stands, and how two texts are compared.

/// Where a token of an expanded configuration stands.
#[derive(Clone, Copy, Debug, PartialEq, Eq, Drop)]
pub struct Line {
    /// The number of its file in the order of reading, the main file being 0.
    pub file: u32,
    /// The line in that file, counted from 1.
    pub line: u32,
    /// The token's place in the expanded list, counted from 0.
    pub at: u32,
}

/// A comparison of two texts by their bytes: as the words `eq`, `ne`, `lt`, `gt`, `le` and `ge` of
/// filters say it.
#[derive(Clone, Copy, PartialEq, Eq, Drop)]
pub enum Cmp {
    Eq,
    Ne,
    Lt,
    Gt,
    Le,
    Ge,
}

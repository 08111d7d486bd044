/// What the kernel says of a file.
#[derive(Clone, Copy, Debug, PartialEq, Eq)]
pub enum KernelAnswer {
    /// It is a file of derivations, with this number of claims.
    Yes(u64),
    /// The first bad line, counted from 1, isn't in the grammar.
    Malformed(u64),
    /// The first bad line, counted from 1, is a step that doesn't follow.
    BadRow(u64),
}

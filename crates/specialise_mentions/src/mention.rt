// A name of a declaration.

/// A declared name: the token that it stands at, the number of its declaration, and how many arguments it has. They have the numbers
/// from the first on.
#[derive(Clone, Copy, Debug, PartialEq, Eq)]
pub struct Mention {
    pub token: u32,
    pub declaration: u32,
    pub first: u64,
    pub arguments: u32,
}

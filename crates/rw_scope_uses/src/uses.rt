// A use of a type variable.
use rw_base::Name;
use rw_tree::Kind;

/// A variable, and the kind at which it stands.
#[derive(Clone, Copy)]
pub struct Use<'a> {
    pub name: &'a Name,
    pub kind: Kind,
}

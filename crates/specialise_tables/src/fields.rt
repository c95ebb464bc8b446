// The types of the fields of data types.

use rw_types_solving::Term;

/// For each constructor of a data type, in order, the types of its fields, whose variables are the parameters of the data type.
#[derive(Drop)]
pub struct Constructors<'a> {
    pub fields: Vec<&'a [Term]>,
}

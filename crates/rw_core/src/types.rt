// Closed data types: a table in which each type names earlier ones.
use sqlite_items::Items;

/// The closed data types of a program, numbered from 0 in their order.
///
/// A table is well formed (`IsTable`) where each type has from 1 to 2^32 - 1 constructors, whose fields name
/// earlier types.
#[derive(Debug, Drop)]
pub struct TyTable {
    pub types: Items<DataTy>,
}

/// A data type: for each constructor, in the order of its declaration, the numbers of its fields' types.
///
/// A tuple or the unit is a type with one constructor (Haskell 2010 Report, section 4.2.1).
#[derive(Debug, Drop)]
pub struct DataTy {
    pub constructors: Items<Items<u32>>,
}

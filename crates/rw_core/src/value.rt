// Values of closed data types.
use sqlite_items::Items;

/// A value: the place of its constructor in the declaration, from 0, and the constructor's fields in order.
#[derive(Debug, Drop)]
pub struct Value {
    pub tag: u32,
    pub fields: Items<Value>,
}

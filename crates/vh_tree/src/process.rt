// Processes.

use crate::{Ident, VStmt};
use sqlite_items::Items;

/// A process: the signals and in ports of its sensitivity list, at least one, and its statements.
#[derive(Drop)]
pub struct Process {
    pub sensitive: Items<Ident>,
    pub body: Items<VStmt>,
}

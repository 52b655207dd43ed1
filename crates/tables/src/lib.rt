// What stands in front of lists and beside them: headers, address tables, offset tables.
#![tactic(auto)]

pub mod addr;
pub mod header;
pub mod lists;
pub mod loclists;
pub mod rnglists;
mod row;

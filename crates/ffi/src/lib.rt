// Reads, headers, tables, sections and sheets, for C and Rust.
#![tactic(auto)]

pub mod coverages;
pub mod headers;
pub mod reads;
pub mod sections;

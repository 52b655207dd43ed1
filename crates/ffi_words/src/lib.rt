// The readers for C and Rust: what their structs hold, and what goes in and out of them.
//
// A slice is a pointer and a length; an encoding, a part and an entry go in by value, and an answer comes out so. Each answer
// begins with what the call comes to: done, the end of a walk, nothing, not there, or refused with a number and a value. Fields
// that a result does not name are 0.
//
// A walk, a place among headers and what is left of a table are lent as words, in and out. A coverage is a count, and begins and
// ends in arrays of `LIMIT` places. Calls that make one write both arrays whole, 0 past the count; calls for its runs alone put
// them at the front of two slices of any length, and leave the other places as they were; to calls that take one, what stands
// past the count makes no difference. A refused call leaves the arrays and the output as they were. What a call writes to shares
// no byte with anything else that it is lent.
#![tactic(auto)]

pub mod common;
pub mod coverages;
pub mod headers;
pub mod locations;
pub mod ranges;
pub mod reads;
pub mod walks;

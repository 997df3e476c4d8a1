//! Tables of records by queue and identifier, and lists of Bools as words.
//!
//! A [`SlotTable`] has slots for all records from its opening on, so no call but the opening takes memory or has a loop. A [`LinkedTable`] is for
//! slots that are too many for that: a hash map, which grows. Both keep their records in one list through all queues, in the order in which they were
//! put, and contracts see that list of rows; how it is threaded is hidden. A [`BitList`] has a bit for each position, and a summary that has one for
//! each word.
#![tactic(auto)]

mod bit_list;
mod bits;
pub mod laws;
mod link;
mod linked_table;
mod nodes;
mod table;

pub use bit_list::BitList;
pub use linked_table::LinkedTable;
pub use table::SlotTable;

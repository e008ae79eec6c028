// The grounds of an image that go by its records and its entries: 8, 9 and 10.
#![tactic(auto)]

pub mod in_entries;
pub mod in_records;

// The house record, request b of document 02: six fields to a record, up to 64 records to a bundle.

#![tactic(auto)]

mod house;
pub mod reader;
pub mod writer;

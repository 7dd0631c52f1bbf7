// What a call gave beside what was wanted: what differs and how often, and bytes that follow a pattern, by which large arrays are compared.

#![tactic(auto)]

pub mod pattern;
pub mod tally;

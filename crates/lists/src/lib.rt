// The text of a list of cases: its lines, their fields, and the numbers and bytes that fields spell.

#![tactic(auto)]

pub mod text;

// What every program that replays a list of cases needs: the list's file, its cases one after the other, and the report on what differed.

#![tactic(auto)]

pub mod cases;
pub mod files;
pub mod report;

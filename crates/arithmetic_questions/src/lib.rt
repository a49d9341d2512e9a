// What every call shares: its answer, the questions it asks, and how its outputs are delivered.
#![tactic(auto)]

pub mod answer;
pub mod output;
pub mod question;
pub mod report;

// A sheet's bytes read, and the bytes of its lines written.
#![tactic(auto)]

pub mod line;
pub mod parse;
pub mod position;
pub mod reading;
pub mod writing;

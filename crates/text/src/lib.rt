// The text layer of document 01, "Terminal text": lines to calls, answers to text, the input to its lines, the listing;
// and tables of standards and whole books as texts of their own.
#![tactic(auto)]

pub mod answering;
pub mod claims;
pub mod desk;
mod entries;
mod entry_lines;
mod first_line;
mod held;
pub mod lines;
pub mod listing;
mod numbers;
mod page;
mod patterns;
pub mod placing;
pub mod reader;
pub mod reading;
pub mod session;
pub mod tables;
pub mod writing;

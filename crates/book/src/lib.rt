// The book layer of document 01: the book, its postings by value and in place, and what a listing shows of it.
#![tactic(auto)]

pub mod answers;
pub mod applying;
pub mod claims;
pub mod closing;
pub mod covering;
pub mod filing;
mod head;
pub mod in_place;
pub mod kinds;
pub mod ledger;
pub mod listing;
pub mod places;
pub mod posting;
pub mod retiring;
pub mod soundness;
pub mod trading;

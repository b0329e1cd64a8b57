// What an item does to one set's record and answers from it, by value: for the table of words and for the region of bytes alike.
// Only here is a rule chosen by the item; those above find the record, and put it back.
#![tactic(auto)]

pub mod commanded;
pub mod entry;
pub mod media;
pub mod set_up;

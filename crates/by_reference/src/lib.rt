// Set-up from a lent list of attribute records, and a lent record charged in place: thin functions over the rules by value. A public
// function here answers a status as its number: its clause says so, by `SetUp` or `ChargedInPlace`, as that of `card`'s set-up does.
#![tactic(auto)]

pub mod callers;
pub mod lists;
pub mod records;

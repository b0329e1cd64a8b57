// The one step that every promise about an item on a lent table cites, on records and on words, and the demands: specs/ and
// proofs/. There is no code here.
#![tactic(auto)]

// The table as bytes, as C lends it: what words are in a region, and the region with other words in their place: specs/ and
// proofs/. There is no code here: `table`, at bytes, is the code.
#![tactic(auto)]

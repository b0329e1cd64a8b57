// All that is proved about the whole, as one record with one proof: specs/ and proofs/. There is no code here.
#![tactic(auto)]

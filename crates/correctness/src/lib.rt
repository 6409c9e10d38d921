// The theorems about the whole stand in specs/ and proofs/: a compiled rule runs as the rule means.
#![tactic(auto)]

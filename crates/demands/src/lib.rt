// The three demands, as theorems about the definitions of `reading`. There is no code here: see proofs/Demands.antt.
#![tactic(auto)]

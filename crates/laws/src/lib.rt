// Laws of integers, powers of two, residues, lists and tables that the other crates cite: see proofs/. There is no code here.
#![tactic(auto)]

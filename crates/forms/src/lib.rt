// Theorems on the forms: value, digits, length, uniqueness, least weight. See proofs/, and specs/ for the functions that code follows. There is no code here.
#![tactic(auto)]

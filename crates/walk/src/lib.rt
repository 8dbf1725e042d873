// Words, steps and walks: laws on the definitions alone, for every run. There is no code here.
#![tactic(auto)]

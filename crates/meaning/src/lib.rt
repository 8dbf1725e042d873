// What the library promises, as definitions: see specs/. There is no code here.
#![tactic(auto)]

// Frames of both versions: laws on the definitions alone. What is written is read back, and no other line is read to the same string, but for letters' case. There is no code here.
#![tactic(auto)]

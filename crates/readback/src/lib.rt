// The table of a word list read back from its bytes: laws alone, there is no code here.
#![tactic(auto)]

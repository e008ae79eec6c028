// The definitions computed on random rows and compared with an independent implementation. There is no code here.
#![tactic(auto)]

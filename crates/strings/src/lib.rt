// Laws of word lists alone: there is no code here.
#![tactic(auto)]

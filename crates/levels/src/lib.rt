// Laws of levels: how far each state is from the start state, and what falling back toward it gives. There is no code here.
#![tactic(auto)]

// Laws of the reduction: see proofs.
#![tactic(auto)]

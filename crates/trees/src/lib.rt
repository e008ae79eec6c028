// Laws of the forest: what the definitions of trees, distances, roots and defaults give. There is no code here.
#![tactic(auto)]

// Laws of damage: an image cut short or altered in one byte is refused. There is no code here.
#![tactic(auto)]

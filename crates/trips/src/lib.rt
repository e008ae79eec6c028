// The two round trips: a table into an image and back, an image into a table and back. There is no code here.
#![tactic(auto)]

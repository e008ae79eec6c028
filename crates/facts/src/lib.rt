// What acceptance says, as plain facts: of a table, of a view, of an image. There is no code here.
#![tactic(auto)]

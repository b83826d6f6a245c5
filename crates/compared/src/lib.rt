// Calls of the store, compared with a model. They are theorems, in specs/; there is no code here.
#![tactic(auto)]

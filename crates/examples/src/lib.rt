// The worked examples of the scope document, run on the definitions of the store. They are in specs/; there is no code here.
#![tactic(auto)]

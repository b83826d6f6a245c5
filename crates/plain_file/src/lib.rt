// The plain file: what the store is to a user. It is a claim about definitions, in specs/; there is no code here.
#![tactic(auto)]

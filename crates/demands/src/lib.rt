// The worked examples of document 01, and the three demands, stated over the entries. No code.

#![tactic(auto)]

// The three demands, and the boxes that they shut out: theorems alone.
#![tactic(auto)]

// The sender's record and the printer agree, and what follows for what is printed: theorems alone.
#![tactic(auto)]

// LAbS as document 000 publishes it, and demand 2: a step is what its rules and the paper's limits allow. There is no code here.

#![tactic(auto)]

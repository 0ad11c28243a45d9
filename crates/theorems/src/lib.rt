// Theorems on the definitions: demands 1 and 3, contact, surviving lines, chains, origins, blame and repair. There is no code here.

#![tactic(auto)]

// The statements of labs and theorems on small fleets, computed; rehearsals that the second implementation made. There is no code here.

#![tactic(auto)]

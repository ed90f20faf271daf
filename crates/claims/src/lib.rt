// Theorems over the definitions that the code is proved to meet: specs/ has a file for each claim.
#![tactic(auto)]

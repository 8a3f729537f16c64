// Theorems alone: what follows from the log's promises on sound logs and through any history. There is no code here.
#![tactic(auto)]

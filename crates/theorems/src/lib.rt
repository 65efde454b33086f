// What is proved of the whole test, about its definition: specs/ states it, proofs/ proves it. There is nothing to run here.
#![tactic(auto)]

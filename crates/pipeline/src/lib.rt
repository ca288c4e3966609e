// The pipeline theorem over any stages: proofs/Stages.antt. There is no code.

#![tactic(auto)]

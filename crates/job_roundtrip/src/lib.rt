// Both round trips of the job files, of the reader and the writer themselves: proofs/Calls.antt. There is no code.

#![tactic(auto)]

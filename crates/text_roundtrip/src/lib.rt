// Listings that are read and texts that are listed, of the reader and the writer themselves: proofs/Calls.antt. There is no code.

#![tactic(auto)]

#![tactic(auto)]

// Definitions and theorems alone: specs/ has what the words of the other crates' contracts mean, proofs/ what follows from that.

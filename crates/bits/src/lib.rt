#![tactic(auto)]

// A 64-bit word as a set of the numbers 0 to 63. The crate has no code: what a word means stands in specs/,
// and what each operation on words does to each bit in proofs/.

#![tactic(auto)]

// The integers of the theory: linear arithmetic over ℤ for `omega`, ranges, sums over a count. Definitions are in specs/, laws in proofs/; there is no code.

// No code: folds over the numbers below n and lists filled from the front, as definitions (specs/) with their laws (proofs/).
#![tactic(auto)]

// What a floor for the diagonal does to a call, and to batches: theorems alone, over the promises of `cholesky::factor_floored` and `extend_floored`.
#![tactic(auto)]

// What the factors do with twin rows: theorems alone, over the definitions that the public promises cite.
#![tactic(auto)]

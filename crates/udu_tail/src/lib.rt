// UDU of the last rows and columns beside UDU of the whole: theorems alone, over the promise of `udu::factor`.
#![tactic(auto)]

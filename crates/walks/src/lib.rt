// No code: what `LentState` of `emitters` cites.
#![tactic(auto)]

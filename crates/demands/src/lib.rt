// The demands that the list call fulfils, and the starred halls: theorems alone, about what the contracts of `reader` and `listing` say.
#![tactic(auto)]

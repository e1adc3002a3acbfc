// What could have stood at the place of a refusal: definitions and theorems, no code.
#![tactic(auto)]

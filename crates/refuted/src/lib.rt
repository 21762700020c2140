// No code: programs that the promises refute, the cases that are proved, and all of it in one.
#![tactic(auto)]

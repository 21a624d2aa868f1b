// No code: the definitions beside it say what a message with one trailer more is, and the theorems what is read back.

#![tactic(auto)]

// The rules for a text and its events (RULES R3 to R8), as a reader has them, and the theorem that the checker decides them. There is no code here.
#![tactic(auto)]

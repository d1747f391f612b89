// The rules of a deck, of its search and of the figures (RULES "Deck", "Rounds", "Figures"): definitions in specs/, theorems in proofs/.
// No code.

#![tactic(auto)]

// fillings: words of which each letter is known only to lie in a range, and the words that they can be (document 02, change 7), as
// definitions in specs/ and laws in proofs/. It has no function.
#![tactic(auto)]

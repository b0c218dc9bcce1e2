// Document 01's starred examples are facts about the definitions: see proofs/Examples.antt.
#![tactic(auto)]

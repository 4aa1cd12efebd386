// No code: the worked lines of document 01 stand in specs/, the statement that they hold in proofs/.
#![tactic(auto)]

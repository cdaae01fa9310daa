// Laws of lists and numbers that the kit lacks: definitions in specs/, their laws in proofs/. No code.

#![tactic(auto)]

// Laws of words, over the definitions of rules: they stand in specs/.
#![tactic(auto)]

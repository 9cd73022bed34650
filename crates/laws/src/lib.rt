// Laws on the definitions of `rules`, in specs/. No code.

#![tactic(auto)]

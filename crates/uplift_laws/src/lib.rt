// Laws of each schedule's uplift (document 02, F-1), over the definitions alone: parts of an amount by weights (Apportion), signs of totals,
// adjusted totals and groups (Signs), and what holds of the shares (Fair).

#![tactic(auto)]

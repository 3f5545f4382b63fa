// The lent parts of `classes` and the labels of paper, tied together: laws alone, all in specs/.
#![tactic(auto)]

// What the answers of the check of proposed priorities and of the planner mean, of memory that the calls made: all in specs/.
#![tactic(auto)]

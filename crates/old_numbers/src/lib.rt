// 01 before [3], and what became of its answers: the words and most theorems in specs/, what rests on the old numbers of frames in proofs/.
#![tactic(auto)]

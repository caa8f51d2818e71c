// What it is: demand 3, over any list of calls on a machine that begins fresh, refused ones among them. It holds no code.
// What it promises: every picture is accounted for: what was painted, when, from which bytes; and what was reported adds up (proofs/Demand3.antt, Sentences.antt, Held.antt, Ends.antt). Crate `runs` says it of the C functions.
// Where its definitions stand: specs/Log.antt (what a frame is made of), specs/Fresh.antt (where a history may begin), specs/Reports.antt (what calls report), specs/Demand.antt (the mission's sentences).
#![tactic(auto)]

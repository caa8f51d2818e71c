// What it is: runs of the C functions themselves: a start, and then any calls, each step whatever the function's own `ensures` clause admits. It holds no code.
// What it promises: demands 2 and 3 of every run, acceptance among them; the ranges of a call's numbers are the functions' own types.
// Where its definitions stand: specs/Run.antt (what a run is), specs/Demands.antt (both demands of one).
#![tactic(auto)]

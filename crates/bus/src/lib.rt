// What it is: the bus as definitions and laws: document 01's world, operations and calls. It holds no code; crates `steps` and `calls` have it.
// What it promises: every operation and every call keeps the record sound, closes at most one frame, paints nothing of the left-over clocks, and a port call takes 4 to 16 clocks.
// Where its definitions stand: specs/World.antt (the three parts), specs/Time.antt (the step), specs/Turns.antt (what is reported), specs/Calls.antt (the calls).
#![tactic(auto)]

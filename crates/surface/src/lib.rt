// What it is: demand 2 over calls of the C surface, on any lent bytes, against the Rust. It holds no code.
// What it promises: each call has the number of the first of its causes that holds, and 0 where none does; where it is accepted, the Rust's own call from a state of the same machine does not panic, and what the C call leaves and answers is what the Rust then holds and answers; where it is refused all is as it was. Crate `runs` says it of the C functions.
// Where its definitions stand: specs/Same.antt (what it is to be the same), specs/Chain.antt (a start and then any calls), crate `rustzx` (the Rust and the relation), crate `contracts` (the calls).
#![tactic(auto)]

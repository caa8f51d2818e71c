// What it is: laws that two or more crates need. It holds no code.
// What it promises: nothing of the bus. Each law is proved once, over the width, the bound or the element type, and cited elsewhere.
// Where its definitions stand: specs/Tests.antt, the tests that antt computes; what each law says stands beside it in proofs/.
#![tactic(auto)]

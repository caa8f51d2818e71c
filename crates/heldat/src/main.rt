// What it is: program `heldat` of request Q-6: reads lines `machine clock`, and prints whether the Z80 is held at each and why.
// What it promises: what it prints is beam's `report_of Held` of what it reads; that is the contract of `beam::report`.
// Where its definitions stand: in beam, specs/.
#![tactic(auto)]

use beam::Question;
use std::io;

fn main(rt: HostRuntime) -> io::Result<()> {
    beam_io::answer(&rt, &mut rt.stdin(), Question::Held)
}

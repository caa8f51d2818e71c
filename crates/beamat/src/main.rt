// What it is: program `beamat` of document 01: reads lines `machine clock`, and prints where the beam is at each.
// What it promises: what it prints is beam's `report_of Beam` of what it reads; that is the contract of `beam::report`.
// Where its definitions stand: in beam, specs/.
#![tactic(auto)]

use beam::Question;
use std::io;

fn main(rt: HostRuntime) -> io::Result<()> {
    beam_io::answer(&rt, &mut rt.stdin(), Question::Beam)
}

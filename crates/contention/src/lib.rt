// What it is: contention, after rustzx's controller.rs: the delay that is due at an address, waits there, and the clocks that the parts of a port call take.
// What it promises: a wait's turn is exactly document 01's list of steps; the clocks of a port call's parts are those of its steps, also where a frame ends among them; only room is asked.
// Where its definitions stand: crate bus, specs/Calls.antt (the calls), specs/Turns.antt (steps one after the other) and specs/Clocks.antt (their clocks); crate steps, specs/Turned.antt (`Ready`).
#![tactic(auto)]

ghost use Rattle.std.specs.Prelude.{◌≡◌, ◌+◌, ◌^◌, ◌<◌};
ghost use Rattle.machine.specs.Numbers.{specs_of};
ghost use Rattle.bus.specs.Turns.{ran_by};
ghost use Rattle.bus.specs.Calls.{address_wait};
ghost use Rattle.bus.specs.Clocks.{due_at, first_clocks, held_thrice, last_clocks, part_clocks};
ghost use Rattle.steps.specs.Turned.{turn_of, Ready};

use machine::ZXMachine;
use memory::Map;
use record::Bus;
use steps::Turning;

// The delay that is due at an address: none if its page is not contended.
fn delay_at(bus: Bus, addr: u16) -> u32
    ensures { result ≡ due_at bus.machine bus.paging addr bus.clock }
{
    if Map::from(bus).addr_is_contended(addr) {
        bus.machine.contention(bus.clock).clocks()
    } else {
        0
    }
}

// A wait at an address, with a memory request or without one: the delay and the n clocks are one step, for the delay closes no frame.
#[tactic(auto, using(bus::proofs::PortSteps::first_small, crate::proofs::CodeReady::frame_small))]
pub fn wait_mreq(
    t: Turning,
    addr: u16,
    n: u32,
    ram: &[u8],
    a: &mut [u8],
    b: &mut [u8],
    border: &mut [u8],
) -> Turning
    requires { Ready (turn_of t ram.now a.old b.old border.old) 2 (n + 6) }
    ensures { turn_of result ram.now a.new b.new border.new
        ≡ ran_by (address_wait t.bus.machine addr n) (turn_of t ram.now a.old b.old border.old) }
{
    let held = delay_at(t.bus, addr);
    steps::wait_internal(t, held + n, ram, a, b, border)
}

// What the first part of a port call takes: the port is looked up as an address.
#[tactic(auto, using(bus::proofs::PortSteps::first_small))]
pub fn first_clocks(bus: Bus, port: u16) -> u32
    ensures { result ≡ first_clocks bus.machine bus.paging port bus.clock }
{
    delay_at(bus, port) + 1
}

// Three held steps one after the other, of 1 clock, 1 clock and none.
#[tactic(auto, using(machine::proofs::Bounds::delay_small), unfolding(bus::specs::Clocks::held_thrice, bus::specs::Clocks::held_twice))]
fn held_thrice(m: ZXMachine, clock: u32) -> u32
    requires { clock < 2 ^ 31 }
    ensures { result ≡ held_thrice (specs_of m) clock }
{
    let one = m.contention(clock).clocks() + 1;
    let next = m.contention(clock + one).clocks() + 1;
    let two = one + next;
    two + m.contention(clock + two).clocks()
}

// What the last part of a port call takes from a clock on.
#[tactic(auto, using(machine::proofs::Bounds::delay_small), unfolding(bus::specs::Clocks::last_clocks))]
pub fn last_clocks(bus: Bus, clock: u32, port: u16) -> u32
    requires { clock < 2 ^ 31 }
    ensures { result ≡ last_clocks bus.machine bus.paging port clock }
{
    let m = bus.machine;
    if m.port_is_contended(port) {
        m.contention(clock).clocks() + 2
    } else if Map::from(bus).addr_is_contended(port) {
        held_thrice(m, clock)
    } else {
        2
    }
}

// What both parts take, one after the other.
#[tactic(auto, using(bus::proofs::PortSteps::first_small, bus::proofs::PortSteps::last_small))]
pub fn part_clocks(bus: Bus, port: u16) -> u32
    requires { bus.clock + 7 < 2 ^ 31 }
    ensures { result ≡ part_clocks bus.machine bus.paging port bus.clock }
{
    let first = first_clocks(bus, port);
    let last = last_clocks(bus, bus.clock + first, port);
    first + last
}

// What it is: the port calls of the bus, after rustzx's controller.rs: port reads and port writes, over the lent memory. Waits at an address stand in crate `contention`.
// What it promises: each call's turn is exactly document 01's list of steps and acts, its value or code the one of its order; only room for the call's steps is asked, as one record `Ready`.
// Where its definitions stand: crate bus, specs/Calls.antt (the calls), specs/Turns.antt (steps one after the other) and specs/Clocks.antt (the clocks of the parts); crate steps, specs/Turned.antt (`Ready`).
#![tactic(auto)]

ghost use Rattle.std.specs.Prelude.{◌≡◌, List, [], ℕ, ◌+◌, ◌<◌, length};
ghost use Rattle.machine.specs.Numbers.{specs_of};
ghost use Rattle.memory.specs.Paging.{write7ffd, paged_code};
ghost use Rattle.memory.specs.Memory.{peeked};
ghost use Rattle.bus.specs.Time.{tick};
ghost use Rattle.bus.specs.Turns.{turned, ran_by};
ghost use Rattle.bus.specs.Calls.{port_read, floating_bus, answered, read_value, paging_write, port_write, write_code};
ghost use Rattle.bus.specs.Clocks.{first_clocks, part_clocks, inked_at_clock, at_clock};
ghost use Rattle.steps.specs.Turned.{turn_of, core_of, Ready};
ghost use Rattle.calls.specs.Paged.{paged_write};

use memory::{Map, Place};
use ports::{Devices, Written};
use record::Bus;
use steps::Turning;

// A port call under way, with what it answers: the value of a read, taken before the final step, or the code of a write.
#[derive(Clone, Copy)]
pub struct Answered {
    pub turn: Turning,
    pub value: u8,
}

// The byte at an address of the picture, which is never in ROM, so that none is lent.
// Kept, here and below: that RAM has its machine's length is asked, since C lends the record and RAM apart, at each call anew.
#[tactic(auto, using(memory::proofs::Places::ram_within))]
fn picture_byte(map: Map, ram: &[u8], addr: u16) -> u8
    requires { length ram.now ≡ (specs_of map.machine).ram }
    ensures { result ≡ peeked map.machine map.paging [] ram.now addr }
{
    match map.place_of(addr) {
        Place::Rom(_) => 0,
        Place::Ram(at) => ram[at],
    }
}

// What the floating bus holds at a clock.
#[tactic(auto, unfolding(bus::specs::Calls::floating_bus))]
pub fn floating_bus_value(bus: Bus, clock: u32, ram: &[u8]) -> u8
    requires { length ram.now ≡ (specs_of bus.machine).ram }
    ensures { result ≡ floating_bus bus.machine (at_clock clock (core_of bus ram.now)) }
{
    let place = ports::floating_place(bus.machine, clock);
    match ports::floating_address(place) {
        None => 0xFF,
        Some(addr) => picture_byte(Map::from(bus), ram, addr),
    }
}

// The value of a read that is taken at a clock.
fn read_value(answer: Option<u8>, bus: Bus, clock: u32, ram: &[u8]) -> u8
    requires { length ram.now ≡ (specs_of bus.machine).ram }
    ensures { result ≡ answered bus.machine answer (at_clock clock (core_of bus ram.now)) }
{
    answer.unwrap_or_else(|| floating_bus_value(bus, clock, ram))
}

// A port read: its value is taken where both parts end, and all its steps are one.
#[tactic(auto, using(bus::proofs::PortSteps::first_small, bus::proofs::PortSteps::last_small, contention::proofs::CodeReady::frame_small, contention::proofs::CodeReady::ready_call))]
pub fn read_io(
    t: Turning,
    devices: Devices,
    port: u16,
    ram: &[u8],
    a: &mut [u8],
    b: &mut [u8],
    border: &mut [u8],
) -> Answered
    requires { Ready (turn_of t ram.now a.old b.old border.old) 2 28 }
    ensures { (turn_of result.turn ram.now a.new b.new border.new
        ≡ ran_by (port_read t.bus.machine port) (turn_of t ram.now a.old b.old border.old))
        × (result.value ≡ read_value t.bus.machine devices port (core_of t.bus ram.now)) }
{
    let bus = t.bus;
    let n = contention::part_clocks(bus, port);
    let value = read_value(ports::read_port(devices, port), bus, bus.clock + n, ram);
    let turn = steps::wait_internal(t, n + 1, ram, a, b, border);
    Answered { turn, value }
}

// A border write at a clock: the reported border, and the beam.
pub fn set_border_color(t: Turning, clock: u32, color: u8, border: &mut [u8]) -> Turning
    requires { length border.old ≡ 76800 }
    ensures { (ram a b : List ℕ) → turn_of result ram a b border.new ≡ inked_at_clock clock color (turn_of t ram a b border.old) }
{
    let bus = t.bus;
    let beam = border::set_border(steps::beam_of(bus), bus.machine, clock, color, border);
    let bus = Bus {
        reported: color,
        ..steps::with_beam(bus, beam)
    };
    Turning { bus, ..t }
}

// A 7FFD write, and what it answers.
pub fn write_7ffd(t: Turning, value: u8) -> Answered
    ensures { ((ram a b border : List ℕ) → turn_of result.turn ram a b border ≡ ran_by (paging_write t.bus.machine value) (turn_of t ram a b border))
        × (result.value ≡ paged_code (write7ffd t.bus.machine t.bus.paging value)) }
{
    let bus = t.bus;
    let taken = Map::from(bus).write_7ffd(value);
    let paging = taken.paging_after(bus.paging);
    let bus = Bus { paging, ..bus };
    Answered {
        turn: Turning { bus, ..t },
        value: taken.code(),
    }
}

// A write that does nothing to the bus: all its steps are one.
#[tactic(auto, using(bus::proofs::PortSteps::first_small, bus::proofs::PortSteps::last_small, contention::proofs::CodeReady::frame_small, contention::proofs::CodeReady::ready_call))]
fn write_quietly(
    t: Turning,
    port: u16,
    ram: &[u8],
    a: &mut [u8],
    b: &mut [u8],
    border: &mut [u8],
) -> Turning
    requires { Ready (turn_of t ram.now a.old b.old border.old) 2 28 }
    ensures { turn_of result ram.now a.new b.new border.new
        ≡ turned (tick (part_clocks t.bus.machine t.bus.paging port t.bus.clock + 1))
        (turn_of t ram.now a.old b.old border.old) }
{
    let bus = t.bus;
    let n = contention::part_clocks(bus, port);
    steps::stepped(t, n + 1, ram, a, b, border)
}

// A border write: it acts at the clock that the first part ends at, and all its steps are one.
#[tactic(auto, using(bus::proofs::PortSteps::first_small, bus::proofs::PortSteps::last_small, contention::proofs::CodeReady::frame_small, contention::proofs::CodeReady::ready_call))]
fn write_border(
    t: Turning,
    port: u16,
    color: u8,
    ram: &[u8],
    a: &mut [u8],
    b: &mut [u8],
    border: &mut [u8],
) -> Turning
    requires { Ready (turn_of t ram.now a.old b.old border.old) 2 28 }
    ensures { turn_of result ram.now a.new b.new border.new
        ≡ turned (tick (part_clocks t.bus.machine t.bus.paging port t.bus.clock + 1))
        (inked_at_clock (t.bus.clock + first_clocks t.bus.machine t.bus.paging port t.bus.clock) color
        (turn_of t ram.now a.old b.old border.old)) }
{
    let bus = t.bus;
    let first = contention::first_clocks(bus, port);
    let acts = bus.clock + first;
    let last = contention::last_clocks(bus, acts, port);
    let inked = set_border_color(t, acts, color, border);
    steps::stepped(inked, first + last + 1, ram, a, b, border)
}

// A paging write: one step before it acts, so that what came before it is painted from the page that was shown, and one after.
#[tactic(auto, using(bus::proofs::PortSteps::first_small, bus::proofs::PortSteps::last_small, contention::proofs::CodeReady::frame_small, contention::proofs::CodeReady::ready_call))]
fn write_paging(
    t: Turning,
    port: u16,
    value: u8,
    ram: &[u8],
    a: &mut [u8],
    b: &mut [u8],
    border: &mut [u8],
) -> Answered
    requires { Ready (turn_of t ram.now a.old b.old border.old) 2 28 }
    ensures { (turn_of result.turn ram.now a.new b.new border.new
        ≡ ran_by (paged_write t.bus.machine port value) (turn_of t ram.now a.old b.old border.old))
        × (result.value ≡ paged_code (write7ffd t.bus.machine t.bus.paging value)) }
{
    let bus = t.bus;
    let first = contention::first_clocks(bus, port);
    let before = steps::stepped(t, first, ram, a, b, border);
    let acted = write_7ffd(before, value);
    let bus = acted.turn.bus;
    let last = contention::last_clocks(bus, bus.clock, port);
    let turn = steps::stepped(acted.turn, last + 1, ram, a, b, border);
    Answered { turn, ..acted }
}

// A port write, by who hears it. The extender's and the AY's part is the firmware's.
pub fn write_io(
    t: Turning,
    devices: Devices,
    port: u16,
    value: u8,
    ram: &[u8],
    a: &mut [u8],
    b: &mut [u8],
    border: &mut [u8],
) -> Answered
    requires { Ready (turn_of t ram.now a.old b.old border.old) 2 28 }
    ensures { (turn_of result.turn ram.now a.new b.new border.new
        ≡ ran_by (port_write t.bus.machine devices port value) (turn_of t ram.now a.old b.old border.old))
        × (result.value ≡ write_code t.bus.machine devices port value (core_of t.bus ram.now)) }
{
    match ports::write_port(t.bus.machine, devices, port) {
        Written::Border => {
            let turn = write_border(t, port, value % 8, ram, a, b, border);
            Answered { turn, value: 4 }
        }
        Written::Paging => write_paging(t, port, value, ram, a, b, border),
        written => {
            let turn = write_quietly(t, port, ram, a, b, border);
            Answered {
                turn,
                value: ports::written_code(written, 0),
            }
        }
    }
}

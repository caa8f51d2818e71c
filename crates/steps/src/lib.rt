// What it is: the step of the bus, after rustzx's wait_internal and new_frame: by value, and on the record where it stands.
// What it promises: record, pictures and border at exit, and the clocks, blocks and closing to report, are exactly those of document 01's step; only room for the step is asked, as one record `Ready`.
// Where its definitions stand: crate bus, specs/Time.antt (the step) and specs/Turns.antt (what is reported); here specs/Turned.antt (what the code's record stands for, and `Ready`).
#![tactic(auto)]

ghost use Rattle.std.specs.Prelude.{◌≡◌, List, ℕ, ◌+◌, ◌-◌, ◌^◌, ◌≤◌, ◌<◌, length};
ghost use Rattle.machine.specs.Numbers.{specs_of};
ghost use Rattle.machine.specs.Limits.{border_length};
ghost use Rattle.record.specs.Record.{HasRoom};
ghost use Rattle.border.specs.Edge.{finished};
ghost use Rattle.bus.specs.World.{world_of};
ghost use Rattle.bus.specs.Time.{tick, shows_a, caught_up};
ghost use Rattle.bus.specs.Turns.{turned, ran_by, fresh};
ghost use Rattle.bus.specs.Calls.{plain_wait};
ghost use Rattle.steps.specs.Turned.{turn_of, screen_of, edge_in, beam_in, beamed, look_to, next_frame, Ready};

use border::Beam;
use memory::Map;
use record::Bus;

// The state of the bus during a call, and what the call has to report so far.
#[derive(Clone, Copy)]
pub struct Turning {
    pub bus: Bus,
    pub clocks: u32,
    pub blocks: u32,
    pub closed: bool,
}

// A call begins with nothing to report.
pub fn begun(bus: Bus) -> Turning
    ensures { (ram a b border : List ℕ) → turn_of result ram a b border ≡ fresh bus.machine (world_of bus ram a b border) }
{
    Turning {
        bus,
        clocks: 0,
        blocks: 0,
        closed: false,
    }
}

// The border's beam, out of the record.
pub fn beam_of(bus: Bus) -> Beam
    ensures { result ≡ beam_in bus }
{
    Beam {
        colour: bus.colour,
        blocked: bus.blocked,
        pairs: bus.pairs,
    }
}

// The record with that beam.
pub fn with_beam(bus: Bus, beam: Beam) -> Bus
    ensures { result ≡ beamed bus beam }
{
    Bus {
        colour: beam.colour,
        blocked: beam.blocked,
        pairs: beam.pairs,
        ..bus
    }
}

// The hidden picture takes the blocks from the painted count up to a position; how many they are. A step that has none to paint ends at the
// first test.
#[tactic(auto, using(paint::proofs::Painting::paint_none, crate::proofs::CodeStep::shown_within), unfolding(bus::specs::Time::caught_up))]
fn catch_up(bus: Bus, position: u32, ram: &[u8], a: &mut [u8], b: &mut [u8]) -> u32
    requires { (position ≤ 6144) × (length ram.now ≡ (specs_of bus.machine).ram) × (length a.old ≡ 49152) × (length b.old ≡ 49152) }
    ensures { (result ≡ position - bus.painted) × (screen_of position a.new b.new
        ≡ caught_up (look_to position bus ram.now) (shows_a bus.phase) (screen_of bus.painted a.old b.old)) }
{
    let from = usize::from(bus.painted);
    let to = position as usize;
    if to <= from {
        return 0;
    }
    let start = 16384 * usize::from(Map::from(bus).screen_bank());
    let flash = (1 <= bus.phase) & (bus.phase <= 16);
    if bus.phase % 2 == 0 {
        paint::paint_ram(ram, start, b, from, to, flash) as u32
    } else {
        paint::paint_ram(ram, start, a, from, to, flash) as u32
    }
}

// A frame's closing at a clock of the next one.
#[tactic(auto, unfolding(border::specs::Edge::finished))]
fn close_frame(bus: Bus, clock: u32, border: &mut [u8]) -> Bus
    requires { HasRoom bus.passed × (bus.phase < 32) × (length border.old ≡ border_length) }
    ensures { (result ≡ next_frame bus clock) × (border.new ≡ (finished (edge_in bus border.old)).pixels) }
{
    let beam = border::new_frame(beam_of(bus), border);
    Bus {
        clock,
        passed: bus.passed + 1,
        phase: (bus.phase + 1) % 32,
        painted: 0,
        ..with_beam(bus, beam)
    }
}

// The step: n clocks are added, the screen is caught up, and at or past the frame's end one frame is taken off and closed.
// Kept: the four lent slices stay four arguments. Behind `&mut` of a struct of them the caller does not learn what its own slices hold at the end
// (a callee may put others into it), and by value the fields of such a struct have no names in an `ensures`. Nor is `Ready` an invariant of a type: the
// room that it says is left, in frames and in clocks, falls with each step.
#[tactic(auto, using(crate::proofs::CodeStep::tick_on, crate::proofs::CodeStep::tick_over, machine::proofs::Bounds::position_small), unfolding(bus::specs::Time::caught_up, border::specs::Edge::finished))]
pub fn stepped(
    t: Turning,
    n: u32,
    ram: &[u8],
    a: &mut [u8],
    b: &mut [u8],
    border: &mut [u8],
) -> Turning
    requires { Ready (turn_of t ram.now a.old b.old border.old) 1 n }
    ensures { turn_of result ram.now a.new b.new border.new
        ≡ turned (tick n) (turn_of t ram.now a.old b.old border.old) }
{
    let bus = t.bus;
    let clock = bus.clock + n;
    let position = bus.machine.block_position(clock);
    let painted = catch_up(bus, position, ram, a, b);
    let clocks = t.clocks + n;
    let blocks = t.blocks + painted;
    let frame = bus.machine.specs().frame;
    if frame <= clock {
        let bus = close_frame(bus, clock - frame, border);
        Turning {
            bus,
            clocks,
            blocks,
            closed: true,
        }
    } else {
        let bus = Bus {
            clock,
            painted: position as u16,
            ..bus
        };
        Turning {
            bus,
            clocks,
            blocks,
            ..t
        }
    }
}

// The same step, on the record where it stands.
// Kept: 01 names this form ("one thin function over &mut of the bus record, above the same step by value").
pub fn step(turn: &mut Turning, n: u32, ram: &[u8], a: &mut [u8], b: &mut [u8], border: &mut [u8])
    requires { Ready (turn_of turn.old ram.now a.old b.old border.old) 1 n }
    ensures { turn_of turn.new ram.now a.new b.new border.new
        ≡ turned (tick n) (turn_of turn.old ram.now a.old b.old border.old) }
{
    *turn = stepped(*turn, n, ram, a, b, border);
}

// The plain wait: one step. It lends a record of its own to `step`, so that its callers go by value.
#[tactic(auto, unfolding(bus::specs::Turns::ran))]
pub fn wait_internal(
    t: Turning,
    n: u32,
    ram: &[u8],
    a: &mut [u8],
    b: &mut [u8],
    border: &mut [u8],
) -> Turning
    requires { Ready (turn_of t ram.now a.old b.old border.old) 1 n }
    ensures { turn_of result ram.now a.new b.new border.new
        ≡ ran_by (plain_wait n) (turn_of t ram.now a.old b.old border.old) }
{
    let mut turn = t;
    step(&mut turn, n, ram, a, b, border);
    turn
}

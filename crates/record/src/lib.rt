// What it is: the state record of document 01, as a value and as 23 little-endian bytes, with the judgement whether lent bytes are sound.
// What it promises: any slice is judged exactly as document 01 says, length first; the bytes of a sound record are held as that record and as no other.
// Where its definitions stand: specs/Words.antt (little-endian numbers), specs/Record.antt (bytes, soundness, start), specs/Sound.antt (soundness as facts).
#![tactic(auto)]

ghost use Rattle.std.specs.Prelude.{◌≡◌, ◌+◌, ◌≤◌, length, ◌&&◌};
ghost use Rattle.record.specs.Words.{le16, le32, word_at, long_at};
ghost use Rattle.record.specs.Record.{record_length, machine_number, machine_of, flag_byte, record_of, record_bytes, advanced, marked, codes_in_range, in_range, painted_in_place, pairs_in_place, blocked_at_end, paging_allowed, sound_bus, held_by, fresh_record, start_record};

use machine::ZXMachine;

// The state of the bus between two calls.
#[derive(Clone, Copy)]
pub struct Bus {
    pub machine: ZXMachine,
    // Clocks since the frame began.
    pub clock: u32,
    // Frames completed since the start or the last reset.
    pub passed: u32,
    // Frames completed modulo 32, which times the flash and picks the hidden picture.
    pub phase: u8,
    // Blocks of this frame that are painted.
    pub painted: u16,
    // The last byte written to port 7FFD.
    pub paging: u8,
    // The border as reported.
    pub reported: u8,
    // The colour in which the beam paints the border.
    pub colour: u8,
    // How far the border of this frame is painted, in pixel pairs.
    pub pairs: u16,
    // Whether a write of this frame has already filled the border to its end. Kept beside the pairs, and not one Option of them: 01's record has both, and
    // bytes in which they disagree stand for a record too, which is not sound. It stands behind the pairs, and not before them as in the bytes:
    // next to three single bytes the compiler packs all four and loads a mask for the flag.
    pub blocked: bool,
}

// Why a lent slice holds no record.
#[derive(Clone, Copy, Debug, PartialEq, Eq)]
pub enum BadRecord {
    WrongLength,
    Unsound,
}

// Where each field starts in the bytes.
const VERSION: usize = 3;

const MACHINE: usize = VERSION + 2;

const CLOCK: usize = MACHINE + 1;

const PASSED: usize = CLOCK + 4;

const PHASE: usize = PASSED + 4;

const PAINTED: usize = PHASE + 1;

const PAGING: usize = PAINTED + 2;

const REPORTED: usize = PAGING + 1;

const COLOUR: usize = REPORTED + 1;

const BLOCKED: usize = COLOUR + 1;

const PAIRS: usize = BLOCKED + 1;

pub const LENGTH: usize = PAIRS + 2;

// The last number of passed frames.
pub const LAST_FRAME: u32 = 4294967295;

// Every number names a machine, also those above 1, which the judgement refuses by itself: a conversion that cannot fail.
pub fn machine_from(n: u8) -> ZXMachine
    ensures { result ≡ machine_of n }
{
    match n {
        0 => ZXMachine::Sinclair48K,
        _ => ZXMachine::Sinclair128K,
    }
}

// The record that the bytes stand for.
fn decode(s: &[u8; LENGTH]) -> Bus
    ensures { result ≡ record_of s.now }
{
    Bus {
        machine: machine_from(s[MACHINE]),
        clock: u32::from_le_bytes([s[CLOCK], s[CLOCK + 1], s[CLOCK + 2], s[CLOCK + 3]]),
        passed: u32::from_le_bytes([s[PASSED], s[PASSED + 1], s[PASSED + 2], s[PASSED + 3]]),
        phase: s[PHASE],
        painted: u16::from_le_bytes([s[PAINTED], s[PAINTED + 1]]),
        paging: s[PAGING],
        reported: s[REPORTED],
        colour: s[COLOUR],
        blocked: s[BLOCKED] == 1,
        pairs: u16::from_le_bytes([s[PAIRS], s[PAIRS + 1]]),
    }
}

// The record's bytes.
pub fn bytes(b: Bus) -> [u8; LENGTH]
    ensures { result ≡ record_bytes b }
{
    let [clock_0, clock_1, clock_2, clock_3] = b.clock.to_le_bytes();
    let [passed_0, passed_1, passed_2, passed_3] = b.passed.to_le_bytes();
    let [painted_0, painted_1] = b.painted.to_le_bytes();
    let [pairs_0, pairs_1] = b.pairs.to_le_bytes();
    [
        b'U',
        b'L',
        b'B',
        1,
        0,
        b.machine as u8,
        clock_0,
        clock_1,
        clock_2,
        clock_3,
        passed_0,
        passed_1,
        passed_2,
        passed_3,
        b.phase,
        painted_0,
        painted_1,
        b.paging,
        b.reported,
        b.colour,
        u8::from(b.blocked),
        pairs_0,
        pairs_1,
    ]
}

// The record's bytes into a lent slice.
// Kept: as `&mut [u8; LENGTH]` an array made of the caller's slice leaves open, in the caller's proof, what the slice holds afterwards.
pub fn encode(dst: &mut [u8], b: Bus)
    requires { length dst.old ≡ record_length }
    ensures { dst.new ≡ record_bytes b }
{
    dst.copy_from_slice(&bytes(b));
}

// Clock and painted blocks alone, into the bytes of a record that keeps the rest.
pub fn advance(dst: &mut [u8], clock: u32, painted: u16)
    requires { length dst.old ≡ record_length }
    ensures { dst.new ≡ advanced dst.old clock painted }
{
    dst[CLOCK..CLOCK + 4].copy_from_slice(&clock.to_le_bytes());
    dst[PAINTED..PAINTED + 2].copy_from_slice(&painted.to_le_bytes());
}

// Mark, version, and the two bytes that have only two values. The version goes byte by byte, as it is written. `&` in place of a pattern or of
// `&&`: each of those tests would be a branch on the timing path.
fn coded(s: &[u8; LENGTH]) -> bool
    ensures { result ≡ (marked s.now && codes_in_range s.now) }
{
    (s[0] == b'U')
        & (s[1] == b'L')
        & (s[2] == b'B')
        & ((s[VERSION] == 1) & (s[VERSION + 1] == 0))
        & ((s[MACHINE] < 2) & (s[BLOCKED] < 2))
}

// The ranges of the fields, `&` as above; those of passed frames and of the 7FFD byte are their types'.
fn in_range(b: Bus) -> bool
    ensures { result ≡ in_range b }
{
    (b.phase < 32) & (b.reported < 8) & (b.colour < 8)
}

fn paging_allowed(m: ZXMachine, paging: u8) -> bool
    ensures { result ≡ paging_allowed m paging }
{
    match m {
        ZXMachine::Sinclair48K => paging == 0,
        ZXMachine::Sinclair128K => true,
    }
}

// The painted blocks and the border's beam are where the frame clock lets them be: each is asked for by its own clock, and no position is
// worked out. Frame end is asked for only where the beam is blocked, which is seldom.
fn in_place(b: Bus) -> bool
    ensures { result ≡ (painted_in_place b && pairs_in_place b && blocked_at_end b) }
{
    let m = b.machine;
    let painted = u32::from(b.painted);
    let pairs = u32::from(b.pairs);
    let reached = m.has_reached_block(painted, b.clock) & m.has_reached_pair(pairs, b.clock);
    if b.blocked {
        reached & (m.frame_end(b.clock) & (pairs == 0))
    } else {
        reached
    }
}

// The cheap tests come first, those of the places only behind them.
fn sound_bus(b: Bus) -> bool
    ensures { result ≡ sound_bus b }
{
    let specs = b.machine.specs();
    in_range(b) & (b.clock < specs.frame) & paging_allowed(b.machine, b.paging) && in_place(b)
}

// What a lent slice holds. The mark is asked for by itself: as one test with what follows, the compiler keeps all fields for both ways out, at up
// to 45 instructions and 16 bytes of stack a call.
pub fn look(s: &[u8]) -> Result<Bus, BadRecord>
    ensures { result ≡ held_by s.now }
{
    let bytes = s.as_array().ok_or(BadRecord::WrongLength)?;
    if !coded(bytes) {
        return Err(BadRecord::Unsound);
    }
    let bus = decode(bytes);
    if sound_bus(bus) {
        Ok(bus)
    } else {
        Err(BadRecord::Unsound)
    }
}

// A fresh record: about to begin a frame, with what a start or a snapshot gives.
pub fn fresh_record(machine: ZXMachine, paging: u8, reported: u8, colour: u8) -> Bus
    ensures { result ≡ fresh_record machine paging reported colour }
{
    Bus {
        machine,
        clock: 0,
        passed: 0,
        phase: 0,
        painted: 0,
        paging,
        reported,
        colour,
        blocked: false,
        pairs: 0,
    }
}

// The record that a start writes: the beam has the start's colour, and the border that is reported is 0 all the same.
pub fn start_record(machine: ZXMachine, colour: u8) -> Bus
    ensures { result ≡ start_record machine colour }
{
    fresh_record(machine, 0, 0, colour)
}

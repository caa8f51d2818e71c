// What it is: the scripts of the oracle: their records, what both sides work out alike (digests, page fillings, devices), and the lines of answers.
// What it promises: a record's operation, numbers and machine are those of its bytes, and a line holds the numbers of the answer's bytes; the rest to be safe and to end. The program replay is held to the lines that the original's side writes.
// Where its definitions stand: specs/Letters.antt (letters), and oracle/README.md, the table of records and lines.
#![tactic(auto)]

ghost use Rattle.std.specs.Prelude.{◌≡◌, ◌%◌, ◌<◌, ◌↔◌, length, slice_set, IsOk, IsSome, IfErr};
ghost use Rattle.record.specs.Words.{byte_at, word_at, long_at};
ghost use Rattle.script.specs.Letters.{op_of, machine_asked};

use machine::ZXMachine;
use std::fmt;

// ---- records

// An operation: how it is played, and which it is of that kind.
#[derive(Clone, Copy)]
pub enum Op {
    Start,
    Timed(Timed),
    Change(Change),
    Ask(Ask),
}

// A timed call.
#[derive(Clone, Copy)]
pub enum Timed {
    WaitInternal,
    WaitMreq,
    WaitNoMreq,
    ReadIo,
    WriteIo,
}

// A call that changes the record, the devices or the memory, and no picture.
#[derive(Clone, Copy)]
pub enum Change {
    Device,
    WriteInternal,
    Write7ffd,
    ResetFrames,
    LoadPage,
    FillRom,
}

// A call that only answers.
#[derive(Clone, Copy)]
pub enum Ask {
    Read7ffd,
    IntActive,
    FramesCount,
    ReadInternal,
    RamPage,
    Block,
    ShownPicture,
    StillPicture,
    Clock,
    Digests,
    Helper(Helper),
}

// A call that works out a number, of no machine.
#[derive(Clone, Copy)]
pub enum Helper {
    BitmapLineAddr,
    BitmapLineRel,
    BitmapColRel,
    AttrRowRel,
    AttrColRel,
    ColorFromBits,
}

// By its letter. Any other letter asks for a colour from bits.
impl From<u8> for Op {
    ghost from_gives = { λ letter op. op ≡ op_of letter };

    fn from(letter: u8) -> Op {
        match letter {
            b'S' => Op::Start,
            b'N' => Op::Timed(Timed::WaitInternal),
            b'M' => Op::Timed(Timed::WaitMreq),
            b'O' => Op::Timed(Timed::WaitNoMreq),
            b'I' => Op::Timed(Timed::ReadIo),
            b'W' => Op::Timed(Timed::WriteIo),
            b'D' => Op::Change(Change::Device),
            b'P' => Op::Change(Change::WriteInternal),
            b'7' => Op::Change(Change::Write7ffd),
            b'Z' => Op::Change(Change::ResetFrames),
            b'L' => Op::Change(Change::LoadPage),
            b'R' => Op::Change(Change::FillRom),
            b'8' => Op::Ask(Ask::Read7ffd),
            b'T' => Op::Ask(Ask::IntActive),
            b'F' => Op::Ask(Ask::FramesCount),
            b'G' => Op::Ask(Ask::ReadInternal),
            b'Q' => Op::Ask(Ask::RamPage),
            b'B' => Op::Ask(Ask::Block),
            b'V' => Op::Ask(Ask::ShownPicture),
            b'K' => Op::Ask(Ask::StillPicture),
            b'C' => Op::Ask(Ask::Clock),
            b'H' => Op::Ask(Ask::Digests),
            b'a' => Op::Ask(Ask::Helper(Helper::BitmapLineAddr)),
            b'b' => Op::Ask(Ask::Helper(Helper::BitmapLineRel)),
            b'c' => Op::Ask(Ask::Helper(Helper::BitmapColRel)),
            b'd' => Op::Ask(Ask::Helper(Helper::AttrRowRel)),
            b'e' => Op::Ask(Ask::Helper(Helper::AttrColRel)),
            _ => Op::Ask(Ask::Helper(Helper::ColorFromBits)),
        }
    }
}

// An operation, and three numbers that it may take.
#[derive(Clone, Copy)]
pub struct Call {
    pub op: Op,
    pub x: u8,
    pub y: u16,
    pub z: u32,
}

impl From<[u8; 8]> for Call {
    ghost from_gives = { λ b call. (call.op ≡ op_of (byte_at b 0)) × (call.x ≡ byte_at b 1) × (call.y ≡ word_at b 2) × (call.z ≡ long_at b 4) };

    fn from(bytes: [u8; 8]) -> Call {
        let [letter, x, y0, y1, z0, z1, z2, z3] = bytes;
        Call {
            op: Op::from(letter),
            x,
            y: u16::from_le_bytes([y0, y1]),
            z: u32::from_le_bytes([z0, z1, z2, z3]),
        }
    }
}

impl Call {
    // The machine on which it is played: a start's own, else that of the state record.
    pub fn machine(self, state: &[u8]) -> ZXMachine
        ensures { result ≡ machine_asked self.op self.z state.now }
    {
        match self.op {
            Op::Start => record::machine_from((self.z % 256) as u8),
            _ => record::machine_from(byte_at(state, 5)),
        }
    }
}

// ---- numbers that both sides work out

// One byte more of a digest: FNV-1a of 32 bits.
fn digest_byte(sum: u32, byte: u8) -> u32 {
    let mixed = u64::from(sum ^ u32::from(byte));
    (mixed * 16777619 % 4294967296) as u32
}

pub fn digest(bytes: &[u8]) -> u32 {
    bytes
        .iter()
        .fold(2166136261, |sum, &byte| digest_byte(sum, byte))
}

// The next number of the generator that fills pages.
fn next(seed: u32) -> u32 {
    ((u64::from(seed) * 1664525 + 1013904223) % 4294967296) as u32
}

fn top_byte(n: u32) -> u8 {
    (n / 16777216) as u8
}

// Each byte is the top byte of the generator's next number.
pub fn fill(bytes: &mut [u8], seed: u32) {
    let mut state = seed;
    for byte in bytes.iter_mut() {
        state = next(state);
        *byte = top_byte(state);
    }
}

// ---- lines

// What a call answers that is accepted.
#[derive(Clone, Copy)]
pub enum Line {
    Done,
    Number(u32),
    Timed {
        value: u8,
        closed: u8,
        interrupt: u8,
        clocks: u32,
        blocks: u16,
    },
    Clock {
        clock: u32,
        border: u8,
    },
    Digests {
        a: u32,
        b: u32,
        border: u32,
        ram: u32,
    },
}

impl fmt::Display for Line {
    fn fmt<W: fmt::Write>(&self, f: &mut fmt::Formatter<W>) -> fmt::Result {
        match *self {
            Line::Done => write!(f, "-"),
            Line::Number(n) => write!(f, "{n}"),
            Line::Timed {
                value,
                closed,
                interrupt,
                clocks,
                blocks,
            } => { write!(f, "{value} {closed} {interrupt} {clocks} {blocks}") }
            Line::Clock { clock, border } => write!(f, "{clock} {border}"),
            Line::Digests { a, b, border, ram } => write!(f, "{a} {b} {border} {ram}"),
        }
    }
}

// A call that is refused, with its number.
#[derive(Clone, Copy, Debug)]
pub struct Refused(pub u8);

impl fmt::Display for Refused {
    fn fmt<W: fmt::Write>(&self, f: &mut fmt::Formatter<W>) -> fmt::Result {
        let number = self.0;
        write!(f, "refused {number}")
    }
}

// What a call's number says: 0 is no refusal.
pub fn accepted(number: u8) -> Result<(), Refused>
    ensures none { IsOk result ↔ (number ≡ 0) }
    ensures refused { IfErr result (λ e. e.0 ≡ number) }
{
    if number == 0 {
        Ok(())
    } else {
        Err(Refused(number))
    }
}

// The number that an accepted call answers in its five bytes.
pub fn number_line(answer: [u8; 5]) -> Line
    ensures { result ≡ Line.Number (long_at answer 1) }
{
    let [_, n0, n1, n2, n3] = answer;
    Line::Number(u32::from_le_bytes([n0, n1, n2, n3]))
}

// What an accepted timed call answers in its ten bytes, behind the value that its line begins with.
pub fn timed_line(value: u8, answer: [u8; 10]) -> Line
    ensures { result ≡ Line.Timed value (byte_at answer 2) (byte_at answer 3) (long_at answer 4) (word_at answer 8) }
{
    let [_, _, closed, interrupt, c0, c1, c2, c3, b0, b1] = answer;
    Line::Timed {
        value,
        closed,
        interrupt,
        clocks: u32::from_le_bytes([c0, c1, c2, c3]),
        blocks: u16::from_le_bytes([b0, b1]),
    }
}

// ---- the state record and the devices, seen from outside

pub fn byte_at(bytes: &[u8], i: usize) -> u8
    ensures { result ≡ byte_at bytes.now i }
{
    bytes.get(i).copied().unwrap_or(0)
}

pub fn clock_line(state: &[u8]) -> Line
    ensures { result ≡ Line.Clock (long_at state.now 6) (byte_at state.now 18) }
{
    Line::Clock {
        clock: u32::from_le_bytes([
            byte_at(state, 6),
            byte_at(state, 7),
            byte_at(state, 8),
            byte_at(state, 9),
        ]),
        border: byte_at(state, 18),
    }
}

// The original's writes answer no code. What is seen of one from outside: with no AY its two classes do nothing, and neither does a locked
// write; a page write of the byte that stands shows nothing.
pub fn seen(code: u8, ay: u8, before: u8, after: u8) -> u8 {
    match code {
        2 | 3 if ay == 0 => 0,
        5 if before == after => 0,
        6 => 0,
        _ => code,
    }
}

// A byte of the device record after a start: no key is down, the tape bit is 1, and no device is there but the AY, if the start says so.
fn fresh_device(i: usize, ay: u8) -> u8 {
    match i {
        0..=23 => 255,
        24 => 1,
        27 => ay,
        _ => 0,
    }
}

pub fn no_devices(devices: &mut [u8], ay: u8) {
    for (i, device) in devices.iter_mut().enumerate() {
        *device = fresh_device(i, ay);
    }
}

// Sets a byte of the device record, if it has that byte.
pub fn set_device(call: Call, devices: &mut [u8]) -> Option<Line>
    ensures there { IsSome result ↔ (call.x < length devices.old) }
    ensures set { devices.new ≡ slice_set devices.old call.x (call.z % 256) }
{
    let i = usize::from(call.x);
    if devices.len() <= i {
        return None;
    }
    devices[i] = (call.z % 256) as u8;
    Some(Line::Done)
}

// What it is: the timing of the two machines, after rustzx's machine/mod.rs and specs.rs: delay, block and border position, interrupt, contended pages and ports, memory sizes.
// What it promises: at every 32-bit clock each function gives exactly what document 01's "Numbers of the two machines" says; none asks anything of its caller.
// Where its definitions stand: specs/Numbers.antt (the table of numbers), specs/Limits.antt (lengths and limits that are no machine's own), specs/Timing.antt (the readings of a clock), specs/Paces.antt (moments that come line by line), specs/Contended.antt (pages and ports), specs/Why.antt (what the delay's answer says).
#![tactic(auto)]

ghost use Rattle.std.specs.Prelude.{◌≡◌, ◌/◌, leb};
ghost use Rattle.machine.specs.Numbers.{specs_of, Regular, regular};
ghost use Rattle.machine.specs.declared.ZXMachine.TheVariants.{Sinclair48K, Sinclair128K};
ghost use Rattle.machine.specs.Timing.{entry, delay_at, clocks_held, blocks_capped, blocks_at, block_position, border_capped, border_at, border_position, frame_end, interrupt};
ghost use Rattle.machine.specs.Paces.{Paced, come};
ghost use Rattle.machine.specs.Contended.{port_contended, bank_contended};

#[derive(Clone, Copy)]
pub enum ZXMachine {
    Sinclair48K,
    Sinclair128K,
}

// A machine's numbers: clocks of a line and of a frame, lines in a frame, the three origins in clocks, and bytes of RAM and ROM.
#[derive(Clone, Copy)]
pub struct ZXSpecs {
    pub line: u32,
    pub lines: u32,
    pub frame: u32,
    pub contention: u32,
    pub block: u32,
    pub border: u32,
    pub ram: usize,
    pub rom: usize,
}

const SPECS_48K: ZXSpecs = ZXSpecs {
    line: 224,
    lines: 312,
    frame: 69888,
    contention: 14335,
    block: 14338,
    border: 8945,
    ram: 49152,
    rom: 16384,
};

const SPECS_128K: ZXSpecs = ZXSpecs {
    line: 228,
    lines: 311,
    frame: 70908,
    contention: 14361,
    block: 14364,
    border: 8875,
    ram: 131072,
    rom: 32768,
};

// One machine's numbers as a type, so that a function over them is compiled once a machine, and divides by a constant. `regular` is all
// that its sums ask of the numbers.
pub trait Numbers {
    ghost use Rattle.machine.specs.declared.ZXSpecs.{ZXSpecs};

    const SPECS: ZXSpecs;

    ghost SPECS: { ZXSpecs };

    ghost regular: { Regular SPECS };
}

pub struct Numbers48K;

pub struct Numbers128K;

impl Numbers for Numbers48K {
    const SPECS: ZXSpecs = SPECS_48K;

    ghost SPECS = { specs_of Sinclair48K };

    ghost regular = { regular Sinclair48K };
}

impl Numbers for Numbers128K {
    const SPECS: ZXSpecs = SPECS_128K;

    ghost SPECS = { specs_of Sinclair128K };

    ghost regular = { regular Sinclair128K };
}

// Bytes of a picture, of the border, and of a page; clocks of the longest wait.
pub const PICTURE_LENGTH: usize = 49152;

pub const BORDER_LENGTH: usize = 76800;

pub const PAGE_LENGTH: usize = 16384;

pub const LONGEST_WAIT: u32 = 65535;

// The delay at a clock, and why. In the picture: its line, document 01's x, and the clocks for which the Z80 is held, which may
// be none. Outside the picture, which x of 128 or more is too, nothing is fetched and nothing held.
// Kept: 02's Q-6 says "The answer is an enum of `machine`"; None would not say why.
#[derive(Clone, Copy)]
pub enum Delay {
    Held { line: u32, x: u32, clocks: u32 },
    Outside,
}

impl Delay {
    // 01's number.
    pub fn clocks(self) -> u32
        ensures { result ≡ clocks_held self }
    {
        match self {
            Delay::Held { line, x, clocks } => clocks,
            Delay::Outside => 0,
        }
    }
}

// How many 8 x 1 blocks have been fetched: whole lines, and columns of the next one.
#[derive(Clone, Copy)]
pub struct BlocksCount {
    pub lines: u32,
    pub columns: u32,
}

// A place of the border. Past the last one, at frame end, the beam is at None.
#[derive(Clone, Copy)]
pub struct BorderPixel {
    pub line: u32,
    pub pixel: u32,
}

impl ZXMachine {
    pub fn specs(self) -> ZXSpecs
        ensures { result ≡ specs_of self }
    {
        match self {
            ZXMachine::Sinclair48K => SPECS_48K,
            ZXMachine::Sinclair128K => SPECS_128K,
        }
    }

    // The delay at a clock of the frame, and why. Kept, here and below: two arms, since each is compiled with its machine's numbers, and divides by a constant.
    pub fn contention(self, clocks: u32) -> Delay
        ensures { result ≡ delay_at (specs_of self) clocks }
    {
        match self {
            ZXMachine::Sinclair48K => delay_by::<Numbers48K>(clocks),
            ZXMachine::Sinclair128K => delay_by::<Numbers128K>(clocks),
        }
    }

    pub fn blocks_count(self, clocks: u32) -> BlocksCount
        ensures { result ≡ blocks_at (specs_of self) clocks }
    {
        match self {
            ZXMachine::Sinclair48K => blocks_by::<Numbers48K>(clocks),
            ZXMachine::Sinclair128K => blocks_by::<Numbers128K>(clocks),
        }
    }

    // Where the border's beam is; None at frame end.
    pub fn next_border_pixel(self, clocks: u32) -> Option<BorderPixel>
        ensures { result ≡ border_at (specs_of self) clocks }
    {
        match self {
            ZXMachine::Sinclair48K => border_by::<Numbers48K>(clocks),
            ZXMachine::Sinclair128K => border_by::<Numbers128K>(clocks),
        }
    }

    // The block position as one number.
    #[tactic(auto, using(crate::proofs::Bounds::position_small))]
    pub fn block_position(self, clocks: u32) -> u32
        ensures { result ≡ block_position (specs_of self) clocks }
    {
        let b = self.blocks_count(clocks);
        32 * b.lines + b.columns
    }

    // The border position as one number, 76,800 at frame end.
    pub fn border_position(self, clocks: u32) -> u32
        ensures { result ≡ border_position (specs_of self) clocks }
    {
        match self.next_border_pixel(clocks) {
            Some(place) => 320 * place.line + place.pixel,
            None => 76800,
        }
    }

    // Frame end by its clock, which is 160 clocks into the border's last line.
    pub fn frame_end(self, clocks: u32) -> bool
        ensures { result ≡ frame_end (specs_of self) clocks }
    {
        match self {
            ZXMachine::Sinclair48K => end_reached_by::<Numbers48K>(clocks),
            ZXMachine::Sinclair128K => end_reached_by::<Numbers128K>(clocks),
        }
    }

    // Whether so many blocks have come: the clock of the last of them is asked for, which takes no division by the line.
    #[tactic(auto, using(crate::proofs::Reached::blocks_come, crate::specs::Numbers::regular))]
    pub fn has_reached_block(self, blocks: u32, clocks: u32) -> bool
        ensures { result ≡ leb blocks (block_position (specs_of self) clocks) }
    {
        match self {
            ZXMachine::Sinclair48K => reached_by::<Numbers48K, 32, 4, 6144>(
                SPECS_48K.block,
                blocks,
                clocks,
            ),
            ZXMachine::Sinclair128K => reached_by::<Numbers128K, 32, 4, 6144>(
                SPECS_128K.block,
                blocks,
                clocks,
            ),
        }
    }

    // The same of the border's pixel pairs.
    #[tactic(auto, using(crate::proofs::Reached::pairs_come, crate::specs::Numbers::regular))]
    pub fn has_reached_pair(self, pairs: u32, clocks: u32) -> bool
        ensures { result ≡ leb pairs (border_position (specs_of self) clocks / 2) }
    {
        match self {
            ZXMachine::Sinclair48K => reached_by::<Numbers48K, 160, 1, 38400>(
                SPECS_48K.border,
                pairs,
                clocks,
            ),
            ZXMachine::Sinclair128K => reached_by::<Numbers128K, 160, 1, 38400>(
                SPECS_128K.border,
                pairs,
                clocks,
            ),
        }
    }

    pub fn port_is_contended(self, port: u16) -> bool
        ensures { result ≡ port_contended self port }
    {
        port & 0x0001 == 0
    }

    pub fn bank_is_contended(self, page: u32) -> bool
        ensures { result ≡ bank_contended self page }
    {
        match self {
            ZXMachine::Sinclair48K => page == 0,
            ZXMachine::Sinclair128K => (page == 1) | (page == 3) | (page == 5) | (page == 7),
        }
    }
}

#[tactic(auto, unfolding(crate::specs::Timing::delay_at, crate::specs::Timing::delay_in_line))]
fn delay_by<M: Numbers>(clocks: u32) -> Delay
    ensures { result ≡ delay_at M.SPECS clocks }
{
    let origin = M::SPECS.contention;
    let line = M::SPECS.line;
    if clocks < origin {
        return Delay::Outside;
    }
    let end = origin + 192 * line;
    if end <= clocks {
        return Delay::Outside;
    }
    let c = clocks - origin;
    let x = c % line;
    if 128 <= x {
        return Delay::Outside;
    }
    let row = c / line;
    Delay::Held {
        line: row,
        x,
        clocks: held_by(x),
    }
}

// "6 - (x mod 8), never below 0": entry x mod 8 of the table of eight, at every x (proofs/Pattern.antt), and no table is read.
fn held_by(x: u32) -> u32
    ensures { result ≡ entry x }
{
    let place = x % 8;
    if place < 6 { 6 - place } else { 0 }
}

#[tactic(auto, unfolding(crate::specs::Timing::blocks_at, crate::specs::Timing::blocks_from, crate::specs::Timing::blocks_capped))]
fn blocks_by<M: Numbers>(clocks: u32) -> BlocksCount
    ensures { result ≡ blocks_at M.SPECS clocks }
{
    let origin = M::SPECS.block;
    let line = M::SPECS.line;
    if clocks < origin {
        return BlocksCount {
            lines: 0,
            columns: 0,
        };
    }
    let c = clocks - origin;
    let row = c / line;
    let column = c % line / 4 + 1;
    let (row, column) = if 32 < column {
        (row + 1, 0)
    } else {
        (row, column)
    };
    if 192 <= row {
        BlocksCount {
            lines: 192,
            columns: 0,
        }
    } else {
        BlocksCount {
            lines: row,
            columns: column,
        }
    }
}

#[tactic(auto, unfolding(crate::specs::Timing::border_at, crate::specs::Timing::border_from, crate::specs::Timing::border_capped))]
fn border_by<M: Numbers>(clocks: u32) -> Option<BorderPixel>
    ensures { result ≡ border_at M.SPECS clocks }
{
    let origin = M::SPECS.border;
    let line = M::SPECS.line;
    if clocks < origin {
        return Some(BorderPixel { line: 0, pixel: 0 });
    }
    let c = clocks - origin;
    let row = c / line;
    let pixel = 2 * (c % line + 1);
    let (row, pixel) = if 320 < pixel {
        (row + 1, 0)
    } else {
        (row, pixel)
    };
    if 240 <= row {
        None
    } else {
        Some(BorderPixel { line: row, pixel })
    }
}

// Whether so many of TOTAL moments have come, PER_LINE of them in a line and EACH clocks apart, the first at the origin. Moment n, counted
// from 1, is in line (n - 1) / PER_LINE.
#[tactic(auto, using(crate::proofs::Reached::moment_reached, crate::proofs::Reached::moments_few))]
fn reached_by<M: Numbers, const PER_LINE: u32, const EACH: u32, const TOTAL: u32>(
    origin: u32,
    count: u32,
    clocks: u32,
) -> bool
    requires { Paced PER_LINE EACH TOTAL M.SPECS.line origin }
    ensures { result ≡ leb count (come PER_LINE EACH TOTAL M.SPECS.line origin clocks) }
{
    let line = M::SPECS.line;
    if count == 0 {
        return true;
    }
    if TOTAL < count {
        return false;
    }
    let last = count - 1;
    let due = origin + last / PER_LINE * line + last % PER_LINE * EACH;
    due <= clocks
}

#[tactic(auto, using(crate::proofs::Rising::end_is))]
fn end_reached_by<M: Numbers>(clocks: u32) -> bool
    ensures { result ≡ frame_end M.SPECS clocks }
{
    let origin = M::SPECS.border;
    let line = M::SPECS.line;
    let end = origin + 239 * line + 160;
    end <= clocks
}

// The interrupt is on in the first clocks of a frame.
pub fn int_active(clocks: u32) -> bool
    ensures { result ≡ interrupt clocks }
{
    clocks < 32
}

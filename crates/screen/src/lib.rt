// What it is: the screen of the ULA: the five address helpers, colours and attributes, and the pixel rule. Crate `paint` paints with it.
// What it promises: each helper answers for every number, in range or not; the eight pixels of a block are what the pixel rule gives for its two bytes.
// Where its definitions stand: specs/Address.antt (helpers), specs/Colour.antt (colours, attributes), specs/Pixel.antt (the pixel rule), specs/Packed.antt (eight pixels in one number).
#![tactic(auto)]

ghost use Rattle.std.specs.Prelude.{◌≡◌, ◌-◌, cond, ◌&&◌, leb};
ghost use Rattle.std.specs.Int.Bits.{bit_xor};
ghost use Rattle.screen.specs.Address.{line_address, line_at, column_at, is_attribute, attribute_row, attribute_column};
ghost use Rattle.screen.specs.Colour.{bit, from_bits, colour_number, brightness_of, attribute_of, active_color};
ghost use Rattle.screen.specs.Pixel.{ink_of, paper_of, block_of, pixel_byte};
ghost use Rattle.screen.specs.Packed.{bits_of, packed};

// The address where a picture line starts: 0 1 0 Y7 Y6 Y2 Y1 Y0 | Y5 Y4 Y3 0 0 0 0 0. Here and below `None` stands for a number that is outside
// its range (refusal 8).
pub fn bitmap_line_addr(line: u32) -> Option<u32>
    ensures { result ≡ line_address line }
{
    (line <= 191).then_some(
        0x4000 | (line << 5) & 0x1800 | (line << 8) & 0x0700 | (line << 2) & 0x00E0,
    )
}

// The offset of a bitmap byte in its page.
fn bitmap_offset(addr: u32) -> Option<u32>
    ensures { result ≡ cond (leb addr 0x17FF) (Some addr) None }
{
    (addr <= 0x17FF).then_some(addr)
}

// The picture line of a bitmap byte, by its offset in the page.
pub fn bitmap_line_rel(addr: u32) -> Option<u32>
    ensures { result ≡ line_at addr }
{
    bitmap_offset(addr).map(|a| (a >> 8) & 0x07 | (a >> 2) & 0x38 | (a >> 5) & 0xC0)
}

// The column of a bitmap byte, by its offset in the page.
pub fn bitmap_col_rel(addr: u32) -> Option<u32>
    ensures { result ≡ column_at addr }
{
    bitmap_offset(addr).map(|a| a & 0x1F)
}

// Which of the page's attributes stands at an offset, counted from 0.
fn attribute_number(addr: u32) -> Option<u32>
    ensures { result ≡ cond (is_attribute addr) (Some (addr - 0x1800)) None }
{
    (0x1800..=0x1AFF).contains(&addr).then(|| addr - 0x1800)
}

// The row of an attribute, by its offset in the page.
pub fn attr_row_rel(addr: u32) -> Option<u32>
    ensures { result ≡ attribute_row addr }
{
    attribute_number(addr).map(|n| n / 32)
}

// The column of an attribute, by its offset in the page.
pub fn attr_col_rel(addr: u32) -> Option<u32>
    ensures { result ≡ attribute_column addr }
{
    attribute_number(addr).map(|n| n % 32)
}

// The eight colours, numbered from 0 in this order.
#[derive(Clone, Copy)]
pub enum ZXColor {
    Black,
    Blue,
    Red,
    Purple,
    Green,
    Cyan,
    Yellow,
    White,
}

impl ZXColor {
    // The colour of a number; under the Rust's name, as the C surface has it.
    pub fn from_bits(bits: u32) -> Option<ZXColor>
        ensures { result ≡ from_bits bits }
    {
        Some(match bits {
            0 => ZXColor::Black,
            1 => ZXColor::Blue,
            2 => ZXColor::Red,
            3 => ZXColor::Purple,
            4 => ZXColor::Green,
            5 => ZXColor::Cyan,
            6 => ZXColor::Yellow,
            7 => ZXColor::White,
            _ => return None,
        })
    }

    // The colour's number.
    pub fn bits(self) -> u8
        ensures { result ≡ colour_number self }
    {
        self as u8
    }
}

#[derive(Clone, Copy)]
pub enum ZXBrightness {
    Normal,
    Bright,
}

fn brightness(byte: u8) -> ZXBrightness
    ensures { result ≡ brightness_of byte }
{
    if byte & 0x40 == 0 {
        ZXBrightness::Normal
    } else {
        ZXBrightness::Bright
    }
}

#[derive(Clone, Copy)]
pub struct ZXAttribute {
    pub ink: ZXColor,
    pub paper: ZXColor,
    pub brightness: ZXBrightness,
    pub flash: bool,
}

impl ZXAttribute {
    pub fn from_byte(byte: u8) -> ZXAttribute
        ensures { result ≡ attribute_of byte }
    {
        ZXAttribute {
            ink: ZXColor::from_bits(u32::from(byte & 0x07)).unwrap(),
            paper: ZXColor::from_bits(u32::from((byte >> 3) & 0x07)).unwrap(),
            brightness: brightness(byte),
            flash: byte & 0x80 != 0,
        }
    }

    // The colour of a pixel whose bit is `state`.
    pub fn active_color(self, state: bool, flash: bool) -> ZXColor
        ensures { result ≡ active_color self state flash }
    {
        if state ^ (self.flash & flash) {
            self.ink
        } else {
            self.paper
        }
    }
}

// The byte of a pixel of that colour and brightness.
pub fn pixel_byte(colour: ZXColor, brightness: ZXBrightness) -> u8
    ensures { result ≡ pixel_byte colour brightness }
{
    let bits = colour.bits();
    match brightness {
        ZXBrightness::Normal => bits,
        ZXBrightness::Bright => bits + 8,
    }
}

// From here on the pixel rule on bytes, for speed; proofs/Attributes.antt has that it is what the attribute gives.
fn ink(attr: u8) -> u8
    ensures { result ≡ ink_of attr }
{
    attr & 7 | attr >> 3 & 8
}

fn paper(attr: u8) -> u8
    ensures { result ≡ paper_of attr }
{
    attr >> 3 & 15
}

// The bits that show ink: the bitmap's, turned over where the attribute flashes and flash is on.
fn lit(attr: u8, bitmap: u8, flash: bool) -> u8
    ensures { result ≡ cond (bit 7 attr && flash) (bit_xor bitmap 255) bitmap }
{
    if flash && 128 <= attr {
        bitmap ^ 255
    } else {
        bitmap
    }
}

// The bits of a byte, each in a byte of its own, the highest in the lowest. A copy moved up by 9 k bits has bit 7 - k at the top of byte k,
// and eight such copies do not meet: seven by the product, the last by the shift, which keeps only its lowest bit.
fn spread(byte: u8) -> u64
    ensures { result ≡ packed 1 0 (bits_of byte) }
{
    let b = u64::from(byte);
    (b * 0x0040201008040201 + (b << 63)) >> 7 & 0x0101010101010101
}

// The eight pixels of a block, in one number: a product puts ink into the bytes of the bits that show it, another paper into the rest.
pub fn block(attr: u8, bitmap: u8, flash: bool) -> [u8; 8]
    ensures { result ≡ block_of attr bitmap flash }
{
    let i = u64::from(ink(attr));
    let p = u64::from(paper(attr));
    let m = spread(lit(attr, bitmap, flash));
    let w = m * i + (0x0101010101010101 - m) * p;
    w.to_le_bytes()
}

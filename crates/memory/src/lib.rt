// What it is: the pages of ROM and RAM and how the 7FFD byte maps them, after rustzx's memory.rs and the paging and memory half of controller.rs.
// What it promises: the page at each block, the shown page, contended addresses, the 7FFD write, bytes read and written, pages handed out and loaded are exactly what document 01's "Bus calls" says, on both machines, at every 7FFD byte and every address; and screen files what document 02 says, Q-2. Only a function that is lent ROM or RAM asks anything of its caller: their lengths.
// Where its definitions stand: specs/Paging.antt (the map, the shown page, contention, the 7FFD write), specs/Memory.antt (places, bytes, parts, loads), specs/Screens.antt (screen files, video pages), specs/Pages.antt (the public pages, apart from document 01).
#![tactic(auto)]

ghost use Rattle.std.specs.Prelude.{◌≡◌, ◌+◌, ◌*◌, ◌/◌, ◌≤◌, length};
ghost use Rattle.machine.specs.Numbers.{specs_of};
ghost use Rattle.machine.specs.Limits.{page_length};
ghost use Rattle.memory.specs.Paging.{page_at, shown_page, addr_contended, write7ffd, paged_code, paging_after, last_page, page_exists, map_of};
ghost use Rattle.memory.specs.Memory.{place_of, peeked, poked, Holds, page_part, ram_page, part_start, stored, loaded};
ghost use Rattle.memory.specs.Screens.{screen_length, screen_file, video_page};

use machine::ZXMachine;
use record::Bus;

// Bytes of a screen file: bitmap, then attributes.
pub const SCREEN_LENGTH: usize = 6912;

// A page of 16 KiB, by its number in ROM or in RAM.
#[derive(Clone, Copy)]
pub enum Page {
    Rom(u8),
    Ram(u8),
}

// A byte's place among all the bytes of ROM, or of RAM.
// Kept: one generic enum for pages and places is no plainer. Definitions count in ℕ, where both would be one type, and a page taken for a
// place would no longer be refused there.
#[derive(Clone, Copy)]
pub enum Place {
    Rom(usize),
    Ram(usize),
}

// What became of a 7FFD write: there is no such port, it is locked, or the byte is held from now on.
// Kept: three outcomes, to each of which 01 gives a number of its own.
#[derive(Clone, Copy)]
pub enum Paged {
    Absent,
    Locked,
    Taken(u8),
}

impl Paged {
    // The number that the 7FFD write answers.
    pub fn code(self) -> u8
        ensures { result ≡ paged_code self }
    {
        match self {
            Paged::Absent => 0,
            Paged::Locked => 6,
            Paged::Taken(_) => 5,
        }
    }

    // The 7FFD byte held after the write.
    pub fn paging_after(self, held: u8) -> u8
        ensures { result ≡ paging_after self held }
    {
        match self {
            Paged::Taken(value) => value,
            Paged::Absent => held,
            Paged::Locked => held,
        }
    }
}

// The map of the address space: a machine, and its 7FFD byte.
#[derive(Clone, Copy)]
pub struct Map {
    pub machine: ZXMachine,
    pub paging: u8,
}

impl From<Bus> for Map {
    ghost from_gives = { λ bus map. map ≡ map_of bus };

    fn from(bus: Bus) -> Map {
        Map {
            machine: bus.machine,
            paging: bus.paging,
        }
    }
}

impl Map {
    // The page at a block of 16 KiB of the address space.
    pub fn get_bank_type(self, block: u32) -> Page
        ensures { result ≡ page_at self.machine self.paging block }
    {
        match self.machine {
            ZXMachine::Sinclair48K => match block {
                1 => Page::Ram(0),
                2 => Page::Ram(1),
                3 => Page::Ram(2),
                _ => Page::Rom(0),
            },
            ZXMachine::Sinclair128K => match block {
                0 => Page::Rom((self.paging >> 4) & 0x01),
                1 => Page::Ram(5),
                2 => Page::Ram(2),
                3 => Page::Ram(self.paging & 0x07),
                _ => Page::Rom(0),
            },
        }
    }

    // The page at an address.
    pub fn get_page(self, addr: u16) -> Page
        ensures { result ≡ page_at self.machine self.paging (addr / page_length) }
    {
        self.get_bank_type(u32::from(addr / 16384))
    }

    // The RAM page that the screen shows.
    pub fn screen_bank(self) -> u8
        ensures { result ≡ shown_page self.machine self.paging }
    {
        match self.machine {
            ZXMachine::Sinclair48K => 0,
            ZXMachine::Sinclair128K => { if self.paging & 0x08 == 0 { 5 } else { 7 } }
        }
    }

    // Whether the page at an address is contended. It goes by the block and not through the page: of a match over the four blocks the compiler
    // makes a table of jumps, and the timing path reads no table. Block 1 is RAM 0 or 5, block 3 of the 128K the paged bank.
    pub fn addr_is_contended(self, addr: u16) -> bool
        ensures { result ≡ addr_contended self.machine self.paging addr }
    {
        let block = addr / 16384;
        match self.machine {
            ZXMachine::Sinclair48K => block == 1,
            ZXMachine::Sinclair128K => {
                let paged = u32::from(self.paging & 0x07);
                (block == 1) | ((block == 3) & self.machine.bank_is_contended(paged))
            }
        }
    }

    // A write of the 7FFD port over the byte held until now. The map is a function of the held byte, so the write that locks has remapped.
    pub fn write_7ffd(self, value: u8) -> Paged
        ensures { result ≡ write7ffd self.machine self.paging value }
    {
        match self.machine {
            ZXMachine::Sinclair48K => Paged::Absent,
            ZXMachine::Sinclair128K => {
                if self.paging & 0x20 == 0 {
                    Paged::Taken(value)
                } else {
                    Paged::Locked
                }
            }
        }
    }

    // The place of the byte at an address.
    pub fn place_of(self, addr: u16) -> Place
        ensures { result ≡ place_of self.machine self.paging addr }
    {
        let offset = usize::from(addr % 16384);
        match self.get_page(addr) {
            Page::Rom(p) => Place::Rom(machine::PAGE_LENGTH * usize::from(p) + offset),
            Page::Ram(p) => Place::Ram(machine::PAGE_LENGTH * usize::from(p) + offset),
        }
    }

    // The byte at an address.
    pub fn read(self, rom: &[u8], ram: &[u8], addr: u16) -> u8
        requires { (length rom.now ≡ (specs_of self.machine).rom) × (length ram.now ≡ (specs_of self.machine).ram) }
        ensures { result ≡ peeked self.machine self.paging rom.now ram.now addr }
    {
        match self.place_of(addr) {
            Place::Rom(at) => rom[at],
            Place::Ram(at) => ram[at],
        }
    }

    // A byte written at an address: ROM takes none.
    pub fn write(self, ram: &mut [u8], addr: u16, value: u8)
        requires { length ram.old ≡ (specs_of self.machine).ram }
        ensures { ram.new ≡ poked self.machine self.paging ram.old addr value }
    {
        if let Place::Ram(at) = self.place_of(addr) {
            ram[at] = value;
        }
    }
}

// Whether the machine has a RAM page of this number: refusal 7 where not.
pub fn page_exists(m: ZXMachine, page: u32) -> bool
    ensures { result ≡ page_exists m page }
{
    page <= last_page(m)
}

pub fn last_page(m: ZXMachine) -> u32
    ensures { result ≡ last_page m }
{
    match m {
        ZXMachine::Sinclair48K => 2,
        ZXMachine::Sinclair128K => 7,
    }
}

// A page as a part of the lent ROM or RAM.
pub fn page_data<'a>(page: Page, rom: &'a [u8], ram: &'a [u8]) -> &'a [u8]
    requires { Holds page (length rom.now) (length ram.now) }
    ensures { result.now ≡ page_part page rom.now ram.now }
{
    match page {
        Page::Rom(p) => ram_page_data(rom, u32::from(p)),
        Page::Ram(p) => ram_page_data(ram, u32::from(p)),
    }
}

// A RAM page by its number, as a part of the lent RAM.
pub fn ram_page_data(ram: &[u8], page: u32) -> &[u8]
    requires { page_length * page + page_length ≤ length ram.now }
    ensures { result.now ≡ ram_page page ram.now }
{
    let start = machine::PAGE_LENGTH * page as usize;
    &ram[start..start + machine::PAGE_LENGTH]
}

// Where a page starts as a number, RAM counted after ROM.
pub fn part_start(m: ZXMachine, page: Page) -> u32
    ensures { result ≡ part_start m page }
{
    match page {
        Page::Rom(p) => 16384 * u32::from(p),
        Page::Ram(p) => m.specs().rom as u32 + 16384 * u32::from(p),
    }
}

// A slice's bytes over another's. A loop of its own: std's copy would have the archive ask for memmove of the C library, where memset is all that it asks for.
fn copy(src: &[u8], dst: &mut [u8])
    requires { length dst.old ≡ length src.now }
    ensures { dst.new ≡ src.now }
{
    for (i, &byte) in src.iter().enumerate() {
        dst[i] = byte;
    }
}

// Bytes put into a slice from a place on.
pub fn put(dst: &mut [u8], at: usize, src: &[u8])
    requires { at + length src.now ≤ length dst.old }
    ensures { dst.new ≡ stored at src.now dst.old }
{
    let end = at + src.len();
    copy(src, &mut dst[at..end]);
}

// Bytes loaded into a RAM page from its first byte on: a whole page, or a screen file.
pub fn load(ram: &mut [u8], page: u32, src: &[u8])
    requires { page_length * page + length src.now ≤ length ram.old }
    ensures { ram.new ≡ loaded page src.now ram.old }
{
    let at = machine::PAGE_LENGTH * page as usize;
    put(ram, at, src);
}

// Whether a page of the machine is one that its screen may show: refusal 9 where not.
pub fn is_video_page(m: ZXMachine, page: u32) -> bool
    ensures { result ≡ video_page m page }
{
    match m {
        ZXMachine::Sinclair48K => page == 0,
        ZXMachine::Sinclair128K => (page == 5) | (page == 7),
    }
}

// The screen file of a RAM page.
pub fn save_screen(ram: &[u8], page: u8, file: &mut [u8])
    requires { (length file.old ≡ screen_length) × (page_length * page + page_length ≤ length ram.now) }
    ensures { file.new ≡ screen_file (ram_page page ram.now) }
{
    let from = machine::PAGE_LENGTH * usize::from(page);
    copy(&ram[from..from + SCREEN_LENGTH], file);
}

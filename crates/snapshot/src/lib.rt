// What it is: snapshots (SNA) of both machines: which bank stands where, the size that is due, the two copies of a bank that stands twice; a file read into RAM and registers, and one written.
// What it promises: sizes, bytes and copies are exactly what document 02 says, Q-4, for every file and every 7FFD byte. A file that is read whole is a `Snapshot`, whose size is the one due; the writer asks that of its file.
// Where its definitions stand: specs/File.antt (the format), specs/Kept.antt (what an import hands back and writes, and the file that an export writes).
#![tactic(auto)]

ghost use Rattle.std.specs.Prelude.{◌≡◌, true, ◌≤◌, ◌<◌, ◌↔◌, length, take, IsSome, IfSome};
ghost use Rattle.machine.specs.Numbers.{specs_of};
ghost use Rattle.memory.specs.Memory.{ram_page, stored};
ghost use Rattle.snapshot.specs.File.{stands_twice, due_size, paging_in, border_in, paged_bank, place_start, banks_in_order, first_place, places_of_banks, all_banks, laid, ram_in, same_bytes, copies_differ};
ghost use Rattle.snapshot.specs.Kept.{registers_length, registers_in, snapshot_record, snapshot_file};
ghost use Rattle.snapshot.specs.Written.{Writes};

use machine::ZXMachine;
use memory::Map;
use record::Bus;

// Bytes of the registers that an import hands back and an export is lent: header, PC and TR-DOS byte.
pub const REGISTERS_LENGTH: usize = 30;

// Bytes of the header, and where in it the border's colour stands.
const HEADER_LENGTH: usize = 27;

const BORDER_AT: usize = 26;

// Behind the third bank, on 128K: PC, the 7FFD byte, the TR-DOS byte.
const PC_AT: usize = 49179;

const PAGING_AT: usize = 49181;

const TRDOS_AT: usize = 49182;

// Whether bank 5 or 2 is the paged one.
fn stands_twice(map: Map) -> bool
    ensures { result ≡ stands_twice map.machine map.paging }
{
    match map.machine {
        ZXMachine::Sinclair48K => false,
        ZXMachine::Sinclair128K => (map.paging % 8 == 5) | (map.paging % 8 == 2),
    }
}

// The size that is due for a machine and its 7FFD byte.
pub fn due_size(map: Map) -> usize
    ensures { result ≡ due_size map.machine map.paging }
{
    match map.machine {
        ZXMachine::Sinclair48K => 49179,
        ZXMachine::Sinclair128K => { if stands_twice(map) { 147487 } else { 131103 } }
    }
}

// A file's 7FFD byte; 0 on 48K, and where the file is too short to hold one.
pub fn paging_in(m: ZXMachine, file: &[u8]) -> u8
    ensures { result ≡ paging_in m file.now }
{
    match m {
        ZXMachine::Sinclair48K => 0,
        ZXMachine::Sinclair128K => {
            if PAGING_AT < file.len() {
                file[PAGING_AT]
            } else {
                0
            }
        }
    }
}

// The banks of a file in the order in which they stand, with what may stand behind the last of them.
// Kept: an array of the longest list's length, since a list of its own length would take heap; who writes takes the part that counts.
fn in_order(map: Map) -> [u8; 9]
    ensures { take (length (banks_in_order map.machine map.paging)) result ≡ banks_in_order map.machine map.paging }
{
    match map.machine {
        ZXMachine::Sinclair48K => [0, 1, 2, 0, 0, 0, 0, 0, 0],
        ZXMachine::Sinclair128K => match map.paging % 8 {
            0 => [5, 2, 0, 1, 3, 4, 6, 7, 0],
            1 => [5, 2, 1, 0, 3, 4, 6, 7, 0],
            2 => [5, 2, 2, 0, 1, 3, 4, 6, 7],
            3 => [5, 2, 3, 0, 1, 4, 6, 7, 0],
            4 => [5, 2, 4, 0, 1, 3, 6, 7, 0],
            5 => [5, 2, 5, 0, 1, 3, 4, 6, 7],
            6 => [5, 2, 6, 0, 1, 3, 4, 7, 0],
            _ => [5, 2, 7, 0, 1, 3, 4, 6, 0],
        },
    }
}

// The place of each bank in that order, the first where it stands twice.
fn places(map: Map) -> [u8; 8]
    ensures { take (length (all_banks map.machine)) result ≡ places_of_banks map.machine map.paging }
{
    match map.machine {
        ZXMachine::Sinclair48K => [0, 1, 2, 0, 0, 0, 0, 0],
        ZXMachine::Sinclair128K => match map.paging % 8 {
            0 => [2, 3, 1, 4, 5, 0, 6, 7],
            1 => [3, 2, 1, 4, 5, 0, 6, 7],
            2 => [3, 4, 1, 5, 6, 0, 7, 8],
            3 => [3, 4, 1, 2, 5, 0, 6, 7],
            4 => [3, 4, 1, 5, 2, 0, 6, 7],
            5 => [3, 4, 1, 5, 6, 0, 7, 8],
            6 => [3, 4, 1, 5, 6, 0, 2, 7],
            _ => [3, 4, 1, 5, 6, 0, 7, 2],
        },
    }
}

// Where the bank at a place begins.
fn place_start(place: usize) -> usize
    requires { place < 9 }
    ensures { result ≡ place_start place }
{
    let behind = HEADER_LENGTH + machine::PAGE_LENGTH * place;
    if place < 3 { behind } else { behind + 4 }
}

// Whether two slices hold the same bytes. Byte by byte: `==` of slices would have the archive ask for memcmp of the C library.
fn same(a: &[u8], b: &[u8]) -> bool
    ensures { result ≡ same_bytes a.now b.now }
{
    if a.len() != b.len() {
        return false;
    }
    for (i, x) in a.iter().enumerate() {
        if *x != b[i] {
            return false;
        }
    }
    true
}

// Where the first copy of the paged bank begins, which is bank 5 or 2.
fn first_copy(map: Map) -> usize
    requires { stands_twice map.machine map.paging ≡ true }
    ensures { (result ≡ place_start (first_place (paged_bank map.paging) (banks_in_order map.machine map.paging))) × (result ≤ 16411) }
{
    if map.paging % 8 == 5 { 27 } else { 16411 }
}

// A file, as a machine's, that has the size that is due.
#[derive(Clone, Copy)]
pub struct Snapshot<'a> {
    pub machine: ZXMachine,
    pub file: &'a [u8],
    pub ghost sized: { length file.now ≡ due_size machine (paging_in machine file.now) },
}

impl<'a> Snapshot<'a> {
    // The file as a snapshot, if it has the size that is due: refusal 10 where not.
    pub fn new(machine: ZXMachine, file: &'a [u8]) -> Option<Snapshot<'a>>
        ensures sized { IsSome result ↔ (length file.now ≡ due_size machine (paging_in machine file.now)) }
        ensures of_file { IfSome result (λ s. (s.machine ≡ machine) × (s.file.now ≡ file.now)) }
    {
        let paging = paging_in(machine, file);
        if file.len() == due_size(Map { machine, paging }) {
            Some(Snapshot { machine, file })
        } else {
            None
        }
    }

    // The map that the file's machine begins with.
    fn map(&self) -> Map
        ensures { (result.machine ≡ self.now.machine) × (result.paging ≡ paging_in self.now.machine self.now.file.now) }
    {
        Map {
            machine: self.machine,
            paging: paging_in(self.machine, self.file),
        }
    }

    // Whether the two copies of a bank differ, where one stands twice: the paged one's, at the third place, and bank 5's or bank 2's own.
    pub fn copies_differ(&self) -> bool
        ensures { result ≡ copies_differ self.now.machine self.now.file.now }
    {
        let map = self.map();
        if stands_twice(map) {
            let at = first_copy(map);
            let behind = at + machine::PAGE_LENGTH;
            !same(&self.file[at..behind], &self.file[32795..49179])
        } else {
            false
        }
    }

    // The record that an import writes.
    pub fn bus(&self) -> Bus
        ensures { result ≡ snapshot_record self.now.machine self.now.file.now }
    {
        let border = self.file[BORDER_AT] % 8;
        let paging = paging_in(self.machine, self.file);
        record::fresh_record(self.machine, paging, border, border)
    }

    // The banks into RAM, each from its first place.
    pub fn read_ram(&self, ram: &mut [u8])
        requires { length ram.old ≡ (specs_of self.now.machine).ram }
        ensures { ram.new ≡ ram_in self.now.machine self.now.file.now }
    {
        let stand = places(self.map());
        let last = memory::last_page(self.machine);
        for bank in 0..=last {
            let at = place_start(usize::from(stand[bank as usize]));
            let end = at + machine::PAGE_LENGTH;
            memory::load(ram, bank, &self.file[at..end]);
        }
    }

    // The header, and behind it PC and TR-DOS byte, which are 0 on 48K.
    pub fn read_registers(&self, registers: &mut [u8])
        requires { length registers.old ≡ registers_length }
        ensures { registers.new ≡ registers_in self.now.machine self.now.file.now }
    {
        let file = self.file;
        memory::put(registers, 0, &file[0..HEADER_LENGTH]);
        match self.machine {
            ZXMachine::Sinclair48K => memory::put(registers, HEADER_LENGTH, &[0, 0, 0]),
            ZXMachine::Sinclair128K => memory::put(
                registers,
                HEADER_LENGTH,
                &[file[PC_AT], file[PC_AT + 1], file[TRDOS_AT]],
            ),
        }
    }
}

// Some banks, into a file from `at` on, one behind the other.
fn write_banks(ram: &[u8], banks: &[u8], file: &mut [u8], at: usize)
    requires { Writes banks.now (length ram.now) (length file.old) at }
    ensures { file.new ≡ stored at (laid (λ bank. ram_page bank ram.now) banks.now) file.old }
{
    for (k, &bank) in banks.iter().enumerate() {
        let page = memory::ram_page_data(ram, u32::from(bank));
        memory::put(file, at + machine::PAGE_LENGTH * k, page);
    }
}

// The file of a machine: header with the reported border, the first three banks, and on 128K PC, 7FFD byte, TR-DOS byte and the other banks.
pub fn write_file(map: Map, border: u8, ram: &[u8], registers: &[u8], file: &mut [u8])
    requires { (length ram.now ≡ (specs_of map.machine).ram) × (length registers.now ≡ registers_length) × (length file.old ≡ due_size map.machine map.paging) }
    ensures { file.new ≡ snapshot_file map.machine map.paging border ram.now registers.now }
{
    let banks = in_order(map);
    memory::put(file, 0, &registers[0..BORDER_AT]);
    file[BORDER_AT] = border;
    write_banks(ram, &banks[..3], file, HEADER_LENGTH);
    match map.machine {
        ZXMachine::Sinclair48K => {}
        ZXMachine::Sinclair128K => {
            memory::put(
                file,
                PC_AT,
                &[registers[27], registers[28], map.paging, registers[29]],
            );
            let rest = if stands_twice(map) { 6 } else { 5 };
            write_banks(ram, &banks[3..3 + rest], file, PC_AT + 4);
        }
    }
}

// What it is: the ports of the bus, after controller.rs's read_io, write_io and floating_bus_value: the device record, the key rows, who answers a read, who hears a write, and where the floating bus reads.
// What it promises: for every record, port and clock the answer is the one that document 01 gives, and nothing is asked: the lent bytes come as an array of 35.
// Where its definitions stand: specs/Devices.antt (the 35 bytes), specs/Keys.antt (key rows), specs/Order.antt (port classes, read and write order), specs/Floating.antt (floating bus); specs/Pages.antt has the public pages' words.
#![tactic(auto)]

ghost use Rattle.std.specs.Prelude.{◌≡◌, ◌+◌, ◌<◌, cond};
ghost use Rattle.machine.specs.Numbers.{specs_of};
ghost use Rattle.ports.specs.Devices.{device_of, devices_of, flags_of};
ghost use Rattle.ports.specs.Keys.{selected, row_in, rows_and, keys_read};
ghost use Rattle.ports.specs.Order.{with_joystick, with_ay, with_mouse, read_order};
ghost use Rattle.ports.specs.Hearers.{port_hearers, hearers, heard_code, hearers_of};
ghost use Rattle.offsets.specs.Offset.{line_start, attribute_start};
ghost use Rattle.ports.specs.Floating.{floating_in, floating_place, floating_address};

use machine::{Numbers, Numbers48K, Numbers128K, ZXMachine};

// Bytes of the lent device record.
pub const DEVICES_LENGTH: usize = 35;

// A device of the record, absent or present with its own bytes.
// Kept: 01 asks for an enum of its own ("`Option` devices become enums of their own").
#[derive(Clone, Copy)]
pub enum Device<B> {
    Absent,
    Present(B),
}

// The three bytes of the mouse's ports.
#[derive(Clone, Copy)]
pub struct MousePorts {
    pub buttons: u8,
    pub x: u8,
    pub y: u8,
}

// The device record: three sets of eight key rows, the tape bit, and the devices. The extender is present when it claims this call's port.
#[derive(Clone, Copy)]
pub struct Devices {
    pub rows: [u8; 24],
    pub tape: u8,
    pub extender: Device<u8>,
    pub ay: Device<u8>,
    pub joystick: Device<u8>,
    pub mouse: Device<MousePorts>,
}

// Who hears a port write. Whether a paging write is locked out is the memory's to say.
#[derive(Clone, Copy)]
pub enum Written {
    Extender,
    AySelect,
    AyWrite,
    Border,
    Paging,
    Nothing,
}

// A byte of the picture that the ULA fetches: row and column, and which of the column's two bytes.
#[derive(Clone, Copy)]
pub enum Fetched {
    Bitmap { row: u8, column: u8 },
    Attribute { row: u8, column: u8 },
}

fn device_from<B: Copy>(flag: u8, bytes: B) -> Device<B>
    ensures { result ≡ device_of flag bytes }
{
    match flag {
        0 => Device::Absent,
        _ => Device::Present(bytes),
    }
}

// The lent 35 bytes as a record, flags judged or not: a flag that is not 0 is a present device.
#[tactic(auto, unfolding(crate::specs::Devices::devices_of))]
pub fn devices_from(s: &[u8; DEVICES_LENGTH]) -> Devices
    ensures { result ≡ devices_of s.now }
{
    let mouse = MousePorts {
        buttons: s[32],
        x: s[33],
        y: s[34],
    };
    Devices {
        rows: *s.first_chunk().unwrap(),
        tape: s[24],
        extender: device_from(s[25], s[26]),
        ay: device_from(s[27], s[28]),
        joystick: device_from(s[29], s[30]),
        mouse: device_from(s[31], mouse),
    }
}

// Whether the tape bit and the four flags are 0 or 1; if not, the call is refused by number 4.
pub fn flags(s: &[u8; DEVICES_LENGTH]) -> bool
    ensures { result ≡ flags_of s.now }
{
    (s[24] < 2) & (s[25] < 2) & (s[27] < 2) & (s[29] < 2) & (s[31] < 2)
}

// Whether the port's high byte selects row n, by a 0 in its bit n.
fn row_selected(port: u16, n: usize) -> bool
    requires { n < 8 }
    ensures { result ≡ selected port n }
{
    (port >> (8 + n)) & 1 == 0
}

// Row n of the three sets if the port selects it, else FFh, which leaves a byte as it is. It is read in either case: a processor guesses a
// branch past it wrong.
fn row_read(rows: [u8; 24], port: u16, n: usize) -> u8
    requires { n < 8 }
    ensures { result ≡ cond (selected port n) (row_in rows n) 0xFF }
{
    let row = rows[n] & rows[n + 8] & rows[n + 16];
    if row_selected(port, n) { row } else { 0xFF }
}

// The selected rows of the three sets ANDed. Once no bit is left no row brings one back. The walk asks for that at every second row, which
// also keeps the compiler from ANDing all rows at once by masks that it would have to load.
fn rows_read(rows: [u8; 24], port: u16) -> u8
    ensures { result ≡ rows_and rows port 8 }
{
    let mut value = 0xFF;
    for n in (0..8).step_by(2) {
        let even = row_read(rows, port, n);
        let odd = row_read(rows, port, n + 1);
        value = value & even & odd;
        if value == 0 {
            break;
        }
    }
    value
}

// The byte of an even port: the selected rows, and bit 6 toggled when the tape bit is 0.
#[tactic(auto, unfolding(crate::specs::Keys::keys_read))]
pub fn keys(rows: [u8; 24], tape: u8, port: u16) -> u8
    ensures { result ≡ keys_read rows tape port }
{
    let value = rows_read(rows, port);
    if tape == 0 { value ^ 0x40 } else { value }
}

fn joystick_answer(joystick: Device<u8>, port: u16) -> Option<u8>
    ensures { result ≡ with_joystick joystick port }
{
    match joystick {
        Device::Present(byte) if port & 0x00E0 == 0 => Some(byte),
        _ => None,
    }
}

// The AY keeps its class of ports also when it is absent: the joystick does not see them.
fn ay_answer(ay: Device<u8>, joystick: Device<u8>, port: u16) -> Option<u8>
    ensures { result ≡ with_ay ay port (with_joystick joystick port) }
{
    if port & 0xC002 == 0xC000 {
        match ay {
            Device::Present(byte) => Some(byte),
            Device::Absent => None,
        }
    } else {
        joystick_answer(joystick, port)
    }
}

fn mouse_answer(
    mouse: Device<MousePorts>,
    ay: Device<u8>,
    joystick: Device<u8>,
    port: u16,
) -> Option<u8>
    ensures { result ≡ with_mouse mouse port (with_ay ay port (with_joystick joystick port)) }
{
    match mouse {
        Device::Present(ports) if port & 0x0121 == 0x0001 => Some(ports.buttons),
        Device::Present(ports) if port & 0x0521 == 0x0101 => Some(ports.x),
        Device::Present(ports) if port & 0x0521 == 0x0501 => Some(ports.y),
        _ => ay_answer(ay, joystick, port),
    }
}

// Who answers a port read, in document 01's order: a device with its byte, or none, and then what the floating bus holds is read.
#[tactic(auto, using(crate::proofs::Ways::is_even, crate::proofs::Ways::is_odd), unfolding(crate::specs::Order::read_order))]
pub fn read_port(d: Devices, port: u16) -> Option<u8>
    ensures { result ≡ read_order d port }
{
    match d.extender {
        Device::Present(byte) => Some(byte),
        Device::Absent if port & 0x0001 == 0 => Some(keys(d.rows, d.tape, port)),
        Device::Absent => mouse_answer(d.mouse, d.ay, d.joystick, port),
    }
}

// Who hears a port write, in document 01's order. The AY's classes are taken on both machines, and also when no AY is there.
pub fn write_port(m: ZXMachine, d: Devices, port: u16) -> Written
    ensures { hearers_of result ≡ hearers m d port }
{
    match d.extender {
        Device::Present(_) => Written::Extender,
        Device::Absent => written_by_port(m, port),
    }
}

#[tactic(auto, using(crate::proofs::Ways::is_even, crate::proofs::Ways::is_odd), unfolding(crate::specs::Hearers::port_hearers))]
fn written_by_port(m: ZXMachine, port: u16) -> Written
    ensures { hearers_of result ≡ port_hearers m port }
{
    let class = port & 0xC002;
    if class == 0xC000 {
        return Written::AySelect;
    }
    if class == 0x8000 {
        return Written::AyWrite;
    }
    if port & 0x0001 == 0 {
        return Written::Border;
    }
    if port & 0x8002 == 0 {
        match m {
            ZXMachine::Sinclair48K => Written::Nothing,
            ZXMachine::Sinclair128K => Written::Paging,
        }
    } else {
        Written::Nothing
    }
}

// Document 01's code of a write; the 7FFD write's own answer is the code of a paging one.
// Kept: 01 gives each case its number, and C takes it.
pub fn written_code(w: Written, paging: u8) -> u8
    ensures { result ≡ heard_code (hearers_of w) paging }
{
    match w {
        Written::Extender => 1,
        Written::AySelect => 2,
        Written::AyWrite => 3,
        Written::Border => 4,
        Written::Paging => paging,
        Written::Nothing => 0,
    }
}

// What the ULA fetches at a clock of the frame, if anything. Each arm is compiled with its machine's numbers, and divides by a constant.
pub fn floating_place(m: ZXMachine, clock: u32) -> Option<Fetched>
    ensures { result ≡ floating_place (specs_of m) clock }
{
    match m {
        ZXMachine::Sinclair48K => place_by::<Numbers48K>(clock),
        ZXMachine::Sinclair128K => place_by::<Numbers128K>(clock),
    }
}

#[tactic(auto, unfolding(crate::specs::Floating::floating_place))]
fn place_by<M: Numbers>(clock: u32) -> Option<Fetched>
    ensures { result ≡ floating_place M.SPECS clock }
{
    let origin = M::SPECS.block;
    let line = M::SPECS.line;
    if clock < origin {
        return None;
    }
    let c = clock - origin;
    place_in(c / line, c % line)
}

#[tactic(auto, unfolding(crate::specs::Floating::floating_in))]
fn place_in(row: u32, r: u32) -> Option<Fetched>
    ensures { result ≡ floating_in row r }
{
    if 192 <= row {
        return None;
    }
    if 124 <= r {
        return None;
    }
    if 3 < r % 8 {
        return None;
    }
    let line = row as u8;
    let column = (2 * (r / 8) + r % 8 / 2) as u8;
    Some(if r % 2 == 0 {
        Fetched::Bitmap { row: line, column }
    } else {
        Fetched::Attribute { row: line, column }
    })
}

// The processor's address of that byte: 0 1 0 Y7 Y6 Y2 Y1 Y0 | Y5 Y4 Y3 0 0 0 0 0 and the column, or the attribute's.
pub fn floating_address(place: Option<Fetched>) -> Option<u16>
    ensures { result ≡ floating_address place }
{
    match place? {
        Fetched::Bitmap { row, column } => {
            Some(line_address(u16::from(row)) + u16::from(column))
        }
        Fetched::Attribute { row, column } => {
            Some(attribute_address(u16::from(row)) + u16::from(column))
        }
    }
}

fn line_address(y: u16) -> u16
    requires { y < 256 }
    ensures { result ≡ 0x4000 + line_start y }
{
    (y & 0xC0) << 5 | (y & 0x07) << 8 | (y & 0x38) << 2 | 0x4000
}

fn attribute_address(y: u16) -> u16
    requires { y < 256 }
    ensures { result ≡ 0x5800 + attribute_start y }
{
    (y & 0xF8) << 2 | 0x5800
}

// What it is: the stored comparison with the Rust original. It plays a script of calls, its standard input, on the library, and writes a line for each.
// What it promises: to be safe and to end. What it writes is held to the file stdout, which holds the original's answers (oracle/list makes both files).
// Where its definitions stand: nowhere; oracle/README.md has the table of records and lines.
#![tactic(auto)]

ghost use Rattle.std.specs.Prelude.{◌≤◌};
ghost use Rattle.replay.specs.declared.TheConstants.{ROM, RAM};

use judgement::{NUMBER_LENGTH, TIMED_LENGTH};
use machine::{BORDER_LENGTH, PAGE_LENGTH, PICTURE_LENGTH, ZXMachine};
use script::{Ask, Call, Change, Helper, Line, Op, Refused, Timed};
use std::io;
use std::io::{ErrorKind, Read};

// Bytes of the greater machine's memory.
const ROM: usize = 32768;

const RAM: usize = 131072;

// The parts of the memory that a machine has.
#[derive(Clone, Copy)]
struct Parts {
    rom: usize,
    ram: usize,
    ghost rom_fits: { rom ≤ ROM },
    ghost ram_fits: { ram ≤ RAM },
}

impl From<ZXMachine> for Parts {
    fn from(machine: ZXMachine) -> Parts {
        let specs = machine.specs();
        Parts {
            rom: specs.rom,
            ram: specs.ram,
        }
    }
}

// All that is lent to the library's calls.
#[derive(Drop)]
struct Board {
    state: [u8; record::LENGTH],
    devices: [u8; ports::DEVICES_LENGTH],
    rom: [u8; ROM],
    ram: [u8; RAM],
    a: [u8; PICTURE_LENGTH],
    b: [u8; PICTURE_LENGTH],
    border: [u8; BORDER_LENGTH],
    // A still picture; a page to be loaded stands in front.
    spare: [u8; PICTURE_LENGTH],
}

// Makes the page that is to be loaded, in front of the spare buffer.
fn fill_page(spare: &mut [u8; PICTURE_LENGTH], seed: u32) {
    script::fill(&mut spare[..PAGE_LENGTH], seed);
}

impl Board {
    // The byte of the last write to port 7FFD.
    fn paging(&self) -> u8 {
        script::byte_at(&self.state, 17)
    }

    fn start(&mut self, call: Call, parts: Parts) -> Result<Line, Refused> {
        let state = &mut self.state;
        let devices = &mut self.devices;
        let ram = &mut self.ram[..];
        let a = &mut self.a;
        let b = &mut self.b;
        let border = &mut self.border;
        script::no_devices(devices, call.x);
        script::accepted(ulb_start::ulb_start_colour(
            state,
            &mut ram[..parts.ram],
            a,
            b,
            border,
            call.z,
            u32::from(call.y),
        ))?;
        Ok(Line::Done)
    }

    // Its refusal.
    fn timed(&mut self, which: Timed, call: Call, parts: Parts, answer: &mut [u8]) -> u8 {
        let state = &mut self.state;
        let devices = &self.devices;
        let ram = &self.ram[..parts.ram];
        let a = &mut self.a;
        let b = &mut self.b;
        let border = &mut self.border;
        match which {
            Timed::WaitInternal => {
                ulb_wait_internal::ulb_wait_internal(state, ram, a, b, border, call.z, answer)
            }
            Timed::WaitMreq => {
                ulb_wait_mreq::ulb_wait_mreq(state, ram, a, b, border, call.y, call.z, answer)
            }
            Timed::WaitNoMreq => {
                ulb_wait_no_mreq::ulb_wait_no_mreq(state, ram, a, b, border, call.y, call.z, answer)
            }
            Timed::ReadIo => {
                ulb_read_io::ulb_read_io(state, devices, ram, a, b, border, call.y, answer)
            }
            Timed::WriteIo => {
                ulb_write_io::ulb_write_io(
                    state, devices, ram, a, b, border, call.y, call.x, answer,
                )
            }
        }
    }

    // The line of a timed call begins with its value, or with what is seen of a port write.
    fn play_timed(&mut self, which: Timed, call: Call, parts: Parts) -> Result<Line, Refused> {
        let mut answer = [0; TIMED_LENGTH];
        let before = self.paging();
        let refusal = self.timed(which, call, parts, &mut answer);
        let value = match which {
            Timed::WriteIo => script::seen(answer[1], self.devices[27], before, self.paging()),
            _ => answer[1],
        };
        script::accepted(refusal)?;
        Ok(script::timed_line(value, answer))
    }

    fn write_7ffd(&mut self, call: Call) -> Result<Line, Refused> {
        let mut answer = [0; NUMBER_LENGTH];
        let before = self.paging();
        script::accepted(ulb_state::ulb_write_7ffd(&mut self.state, call.x, &mut answer))?;
        let code = script::seen(answer[1], 1, before, self.paging());
        Ok(Line::Number(u32::from(code)))
    }

    fn load_page(&mut self, call: Call, parts: Parts) -> Result<Line, Refused> {
        fill_page(&mut self.spare, call.z);
        let state = &self.state;
        let ram = &mut self.ram[..];
        let page = &self.spare[..PAGE_LENGTH];
        let number = u32::from(call.x);
        script::accepted(ulb_memory::ulb_load_page(state, &mut ram[..parts.ram], page, number))?;
        Ok(Line::Done)
    }

    fn write_internal(&mut self, call: Call, parts: Parts) -> Result<Line, Refused> {
        let state = &self.state;
        let ram = &mut self.ram[..];
        let ram = &mut ram[..parts.ram];
        script::accepted(ulb_write_internal::ulb_write_internal(state, ram, call.y, call.x))?;
        Ok(Line::Done)
    }

    fn reset_frames(&mut self) -> Result<Line, Refused> {
        script::accepted(ulb_state::ulb_reset_frame_counter(&mut self.state))?;
        Ok(Line::Done)
    }

    fn fill_rom(&mut self, call: Call, parts: Parts) -> Line {
        let rom = &mut self.rom[..];
        script::fill(&mut rom[..parts.rom], call.z);
        Line::Done
    }

    fn change(&mut self, which: Change, call: Call, parts: Parts) -> Option<Result<Line, Refused>> {
        Some(match which {
            Change::Device => Ok(script::set_device(call, &mut self.devices)?),
            Change::WriteInternal => self.write_internal(call, parts),
            Change::Write7ffd => self.write_7ffd(call),
            Change::ResetFrames => self.reset_frames(),
            Change::LoadPage => self.load_page(call, parts),
            Change::FillRom => Ok(self.fill_rom(call, parts)),
        })
    }

    fn still_picture(&mut self, call: Call, parts: Parts) -> Result<Line, Refused> {
        let state = &self.state;
        let ram = &self.ram;
        let still = &mut self.spare;
        script::accepted(ulb_pictures::ulb_still_picture(state, &ram[..parts.ram], still, call.z))?;
        Ok(Line::Number(script::digest(still)))
    }

    fn digests(&self, parts: Parts) -> Line {
        Line::Digests {
            a: script::digest(&self.a),
            b: script::digest(&self.b),
            border: script::digest(&self.border),
            ram: script::digest(&self.ram[..parts.ram]),
        }
    }

    fn ask(&mut self, which: Ask, call: Call, parts: Parts) -> Result<Line, Refused> {
        let mut answer = [0; NUMBER_LENGTH];
        let state = &self.state;
        let rom = &self.rom[..parts.rom];
        let ram = &self.ram[..parts.ram];
        let number = u32::from(call.x);
        let refusal = match which {
            Ask::Read7ffd => ulb_state::ulb_read_7ffd(state, &mut answer),
            Ask::IntActive => ulb_state::ulb_int_active(state, &mut answer),
            Ask::FramesCount => ulb_state::ulb_frames_count(state, &mut answer),
            Ask::ReadInternal => {
                ulb_memory::ulb_read_internal(state, rom, ram, call.y, &mut answer)
            }
            Ask::RamPage => ulb_memory::ulb_ram_page(state, ram, number, &mut answer),
            Ask::Block => ulb_memory::ulb_block(state, rom, ram, number, &mut answer),
            Ask::ShownPicture => {
                ulb_pictures::ulb_shown_picture(state, &self.a, &self.b, &mut answer)
            }
            Ask::StillPicture => return self.still_picture(call, parts),
            Ask::Clock => return Ok(script::clock_line(state)),
            Ask::Digests => return Ok(self.digests(parts)),
            Ask::Helper(helper) => help(helper, call.z, &mut answer),
        };
        script::accepted(refusal)?;
        Ok(script::number_line(answer))
    }

    // Plays a record on the parts of the memory that its machine has. There is no line for a byte that the device record does not have.
    fn play(&mut self, call: Call) -> Option<Result<Line, Refused>> {
        let parts = Parts::from(call.machine(&self.state));
        match call.op {
            Op::Start => Some(self.start(call, parts)),
            Op::Timed(which) => Some(self.play_timed(which, call, parts)),
            Op::Change(which) => self.change(which, call, parts),
            Op::Ask(which) => Some(self.ask(which, call, parts)),
        }
    }
}

// Its refusal.
fn help(which: Helper, number: u32, answer: &mut [u8]) -> u8 {
    match which {
        Helper::BitmapLineAddr => ulb_helpers::ulb_bitmap_line_addr(number, answer),
        Helper::BitmapLineRel => ulb_helpers::ulb_bitmap_line_rel(number, answer),
        Helper::BitmapColRel => ulb_helpers::ulb_bitmap_col_rel(number, answer),
        Helper::AttrRowRel => ulb_helpers::ulb_attr_row_rel(number, answer),
        Helper::AttrColRel => ulb_helpers::ulb_attr_col_rel(number, answer),
        Helper::ColorFromBits => ulb_helpers::ulb_color_from_bits(number, answer),
    }
}

// The next record, if there is one.
fn next_call(input: &mut impl Read) -> io::Result<Option<Call>> {
    let mut bytes = [0; 8];
    match input.read_exact(&mut bytes) {
        Ok(()) => Ok(Some(Call::from(bytes))),
        Err(e) if e.kind() == ErrorKind::UnexpectedEof => Ok(None),
        Err(e) => Err(e),
    }
}

fn main(rt: HostRuntime) -> io::Result<()> {
    let mut board = Board {
        state: [0; record::LENGTH],
        devices: [0; ports::DEVICES_LENGTH],
        rom: [0; ROM],
        ram: [0; RAM],
        a: [0; PICTURE_LENGTH],
        b: [0; PICTURE_LENGTH],
        border: [0; BORDER_LENGTH],
        spare: [0; PICTURE_LENGTH],
    };
    let mut input = rt.stdin();
    // A proved loop has to end, and nothing says that the input does: so its turns are counted, more than the stored script has.
    for _ in 0..1_000_000 {
        let Some(call) = next_call(&mut input)? else {
            break
        };
        match board.play(call) {
            None => {}
            Some(Ok(line)) => println!(rt; "{line}")?,
            Some(Err(refused)) => println!(rt; "{refused}")?,
        }
    }
    Ok(())
}

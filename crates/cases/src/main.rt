// What it is: document 01's cases that are run only, on the calls that the firmware makes. Those to be proved stand in crate case_table.
// What it promises: it is safe and ends; what it prints is held to its file stdout.
// Where its definitions stand: crate contracts, specs/; each line names its case.
#![tactic(auto)]

use judgement::TIMED_LENGTH;
use machine::{BORDER_LENGTH, PICTURE_LENGTH};
use ports::DEVICES_LENGTH;
use record::LENGTH;
use std::io;

const RAM_48K: usize = 49152;

// All that is lent to the calls.
#[derive(Drop)]
struct Board {
    state: [u8; LENGTH],
    devices: [u8; DEVICES_LENGTH],
    ram: [u8; RAM_48K],
    a: [u8; PICTURE_LENGTH],
    b: [u8; PICTURE_LENGTH],
    border: [u8; BORDER_LENGTH],
    // That of the last timed call.
    answer: [u8; TIMED_LENGTH],
}

impl Board {
    fn start(&mut self) {
        let state = &mut self.state;
        let ram = &mut self.ram;
        let a = &mut self.a;
        let b = &mut self.b;
        let border = &mut self.border;
        ulb_start::ulb_start(state, ram, a, b, border, 0);
    }

    fn write(&mut self, address: u16, byte: u8) {
        let state = &self.state;
        let ram = &mut self.ram;
        ulb_write_internal::ulb_write_internal(state, ram, address, byte);
    }

    // Its refusal.
    fn wait(&mut self, clocks: u32) -> u8 {
        let state = &mut self.state;
        let ram = &self.ram;
        let a = &mut self.a;
        let b = &mut self.b;
        let border = &mut self.border;
        let answer = &mut self.answer;
        ulb_wait_internal::ulb_wait_internal(state, ram, a, b, border, clocks, answer)
    }

    // The byte that is read.
    fn read_port(&mut self, port: u16) -> u8 {
        let state = &mut self.state;
        let devices = &self.devices;
        let ram = &self.ram;
        let a = &mut self.a;
        let b = &mut self.b;
        let border = &mut self.border;
        let answer = &mut self.answer;
        ulb_read_io::ulb_read_io(state, devices, ram, a, b, border, port, answer);
        answer[1]
    }

    // Whether the last timed call closed the frame.
    fn closed(&self) -> u8 {
        self.answer[2]
    }

    // Attribute 47h gives pixels 15 and 8: block 0 is painted at clock 14,338, into B.
    fn pixels(&mut self, rt: &impl Print) -> io::Result<()> {
        self.start();
        self.write(0x4000, 0x80);
        self.write(0x5800, 0x47);
        self.wait(14338);
        println!(rt; "attribute 47h, bit set: pixel {}", self.b[0])?;
        println!(rt; "attribute 47h, bit clear: pixel {}", self.b[1])
    }

    // Port FFFEh with no row selected gives FFh, or BFh with tape bit 0.
    fn port(&mut self, rt: &impl Print) -> io::Result<()> {
        self.devices[24] = 1;
        println!(rt; "port FFFEh, tape bit 1: {}", self.read_port(0xFFFE))?;
        self.devices[24] = 0;
        println!(rt; "port FFFEh, tape bit 0: {}", self.read_port(0xFFFE))
    }

    // Wait 65,535 accepted, 65,536 refused; clock 69,887 plus 1 closes the frame, plus 0 does not.
    fn waits(&mut self, rt: &impl Print) -> io::Result<()> {
        self.start();
        println!(rt; "wait 65,535: refusal {}", self.wait(65535))?;
        println!(rt; "wait 65,536: refusal {}", self.wait(65536))?;
        self.wait(4352);
        self.wait(0);
        println!(rt; "clock 69,887 plus 0: closed {}", self.closed())?;
        self.wait(1);
        println!(rt; "clock 69,887 plus 1: closed {}", self.closed())
    }
}

fn main(rt: HostRuntime) -> io::Result<()> {
    let mut board = Board {
        state: [0; LENGTH],
        devices: [0; DEVICES_LENGTH],
        ram: [0; RAM_48K],
        a: [0; PICTURE_LENGTH],
        b: [0; PICTURE_LENGTH],
        border: [0; BORDER_LENGTH],
        answer: [0; TIMED_LENGTH],
    };
    board.pixels(&rt)?;
    board.port(&rt)?;
    board.waits(&rt)
}

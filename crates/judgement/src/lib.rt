// What it is: the eight refusals of document 01 and refusals 9, 10 and 11 of document 02 (Q-2, Q-4), their order, and the bytes of the answers.
// What it promises: each judgement is the first refusal, in the stated order, whose condition holds, or the sound record where none does; each answer has exactly the stated bytes.
// Where its definitions stand: specs/Refusals.antt (numbers and order), specs/Judges.antt (each call's conditions), specs/Answers.antt (bytes).
#![tactic(auto)]

ghost use Rattle.std.specs.Prelude.{◌≡◌, ◌<◌, length, IfOk};
ghost use Rattle.judgement.specs.Refusals.{refusal_number, of_record, judged, in_turn};
ghost use Rattle.judgement.specs.Judges.{number_fits, ram_fits, rom_fits, lent_fit, judge_wait, judge_port, judge_state, judge_told, judge_read, judge_write, judge_load, judge_ram_page, judge_block, judge_shown, judge_still, judge_save_scr, judge_load_scr, judge_save_sna, start_fits, frames_full, bad_page, screen_fits};
ghost use Rattle.judgement.specs.Answers.{timed_length, timed_answer, number_length, number_answer, refused_answer, told_code, told_answer};

use machine::ZXMachine;
use memory::Map;
use record::{BadRecord, Bus};

// Bytes of a timed call's answer, and of another call's with a number to give.
pub const TIMED_LENGTH: usize = 10;

pub const NUMBER_LENGTH: usize = 5;

// In the order of their numbers, so that a refusal's number is its place; the order of judging is that of `Causes`.
#[derive(Clone, Copy, Debug, PartialEq, Eq)]
pub enum Refusal {
    BadMachine,
    BadLength,
    Unsound,
    BadFlag,
    LongWait,
    FramesFull,
    BadPage,
    BadNumber,
    NoVideoPage,
    WrongSize,
    UnequalCopies,
}

// A refusal's number.
impl From<Refusal> for u8 {
    ghost from_gives = { λ e n. n ≡ refusal_number e };

    fn from(e: Refusal) -> u8 {
        match e {
            Refusal::BadMachine => 1,
            Refusal::BadLength => 2,
            Refusal::Unsound => 3,
            Refusal::BadFlag => 4,
            Refusal::LongWait => 5,
            Refusal::FramesFull => 6,
            Refusal::BadPage => 7,
            Refusal::BadNumber => 8,
            Refusal::NoVideoPage => 9,
            Refusal::WrongSize => 10,
            Refusal::UnequalCopies => 11,
        }
    }
}

// What refuses a slice that holds no sound record.
impl From<BadRecord> for Refusal {
    ghost from_gives = { λ bad e. e ≡ of_record bad };

    fn from(bad: BadRecord) -> Refusal {
        match bad {
            BadRecord::WrongLength => Refusal::BadLength,
            BadRecord::Unsound => Refusal::Unsound,
        }
    }
}

// The causes behind the record, each by whether it holds, in their order: "other lengths, 4, 5, 6, 7, 8", 9 "after 7", and 10 behind them.
// A call names the causes that are its own; no other holds.
#[derive(Clone, Copy, Default)]
struct Causes {
    length: bool,
    flag: bool,
    wait: bool,
    frames: bool,
    page: bool,
    video: bool,
    number: bool,
    size: bool,
}

// The first cause that holds refuses.
#[tactic(auto, unfolding(crate::specs::Refusals::judged))]
fn first_cause(bus: Bus, causes: Causes) -> Result<Bus, Refusal>
    ensures { result ≡ judged (in_turn causes) bus }
{
    if causes.length {
        return Err(Refusal::BadLength);
    }
    if causes.flag {
        return Err(Refusal::BadFlag);
    }
    if causes.wait {
        return Err(Refusal::LongWait);
    }
    if causes.frames {
        return Err(Refusal::FramesFull);
    }
    if causes.page {
        return Err(Refusal::BadPage);
    }
    if causes.video {
        return Err(Refusal::NoVideoPage);
    }
    if causes.number {
        return Err(Refusal::BadNumber);
    }
    if causes.size {
        return Err(Refusal::WrongSize);
    }
    Ok(bus)
}

// The record is judged before what depends on it: its length, then its soundness.
#[tactic(auto, unfolding(crate::specs::Judges::judge_state, crate::specs::Refusals::judged))]
pub fn judge_state(state: &[u8]) -> Result<Bus, Refusal>
    ensures { result ≡ judge_state state.now }
{
    Ok(record::look(state)?)
}

// Kept: this and the next differ in a field alone; a function over the field would be no shorter, and 01 names both lengths.
fn ram_fits(bus: Bus, ram: usize) -> bool
    ensures { result ≡ ram_fits bus ram }
{
    ram == bus.machine.specs().ram
}

fn rom_fits(bus: Bus, rom: usize) -> bool
    ensures { result ≡ rom_fits bus rom }
{
    rom == bus.machine.specs().rom
}

// The slices of a timed call.
fn lent_fit(bus: Bus, ram: usize, a: usize, b: usize, border: usize) -> bool
    ensures { result ≡ lent_fit bus ram a b border }
{
    ram_fits(bus, ram)
        & (a == machine::PICTURE_LENGTH)
        & (b == machine::PICTURE_LENGTH)
        & (border == machine::BORDER_LENGTH)
}

// Passed frames at their last number.
fn frames_full(bus: Bus) -> bool
    ensures { result ≡ (frames_full bus).holds }
{
    bus.passed == record::LAST_FRAME
}

// A slice is given by its length from here on, the state and the device record by their bytes.
// Kept: the lengths are numbers one by one; a struct of them would be written at each call from that call's own slices, and be no shorter.
#[tactic(auto, unfolding(crate::specs::Judges::judge_wait, crate::specs::Refusals::judged))]
pub fn judge_wait(
    state: &[u8],
    ram: usize,
    a: usize,
    b: usize,
    border: usize,
    clocks: u32,
    answer: usize,
) -> Result<Bus, Refusal>
    ensures { result ≡ judge_wait state.now ram a b border clocks answer }
{
    let bus = record::look(state)?;
    let fit = lent_fit(bus, ram, a, b, border) & (answer == TIMED_LENGTH);
    first_cause(
        bus,
        Causes {
            length: !fit,
            wait: machine::LONGEST_WAIT < clocks,
            frames: frames_full(bus),
            ..Causes::default()
        },
    )
}

// The flags are looked at only where the device record has its length.
#[tactic(auto, unfolding(crate::specs::Judges::judge_port, crate::specs::Refusals::judged))]
pub fn judge_port(
    state: &[u8],
    devices: &[u8],
    ram: usize,
    a: usize,
    b: usize,
    border: usize,
    answer: usize,
) -> Result<Bus, Refusal>
    ensures { result ≡ judge_port state.now devices.now ram a b border answer }
{
    let bus = record::look(state)?;
    let Ok(devices) = devices.try_into() else {
        return Err(Refusal::BadLength);
    };
    let fit = lent_fit(bus, ram, a, b, border) & (answer == TIMED_LENGTH);
    first_cause(
        bus,
        Causes {
            length: !fit,
            flag: !ports::flags(devices),
            frames: frames_full(bus),
            ..Causes::default()
        },
    )
}

// The record, and a number to give.
#[tactic(auto, unfolding(crate::specs::Judges::judge_told, crate::specs::Refusals::judged))]
pub fn judge_told(state: &[u8], answer: usize) -> Result<Bus, Refusal>
    ensures verdict { result ≡ judge_told state.now answer }
    ensures answer { IfOk result (λ bus. answer ≡ number_length) }
{
    let bus = record::look(state)?;
    first_cause(
        bus,
        Causes {
            length: answer != NUMBER_LENGTH,
            ..Causes::default()
        },
    )
}

#[tactic(auto, unfolding(crate::specs::Judges::judge_read, crate::specs::Refusals::judged))]
pub fn judge_read(state: &[u8], rom: usize, ram: usize, answer: usize) -> Result<Bus, Refusal>
    ensures verdict { result ≡ judge_read state.now rom ram answer }
    ensures answer { IfOk result (λ bus. answer ≡ number_length) }
{
    let bus = record::look(state)?;
    let fit = rom_fits(bus, rom) & ram_fits(bus, ram) & (answer == NUMBER_LENGTH);
    first_cause(
        bus,
        Causes {
            length: !fit,
            ..Causes::default()
        },
    )
}

#[tactic(auto, unfolding(crate::specs::Judges::judge_write, crate::specs::Refusals::judged))]
pub fn judge_write(state: &[u8], ram: usize) -> Result<Bus, Refusal>
    ensures { result ≡ judge_write state.now ram }
{
    let bus = record::look(state)?;
    first_cause(
        bus,
        Causes {
            length: !ram_fits(bus, ram),
            ..Causes::default()
        },
    )
}

fn page_missing(bus: Bus, page: u32) -> bool
    ensures { result ≡ (bad_page bus page).holds }
{
    !memory::page_exists(bus.machine, page)
}

#[tactic(auto, unfolding(crate::specs::Judges::judge_load, crate::specs::Refusals::judged))]
pub fn judge_load(state: &[u8], ram: usize, bytes: usize, page: u32) -> Result<Bus, Refusal>
    ensures { result ≡ judge_load state.now ram bytes page }
{
    let bus = record::look(state)?;
    let fit = ram_fits(bus, ram) & (bytes == machine::PAGE_LENGTH);
    first_cause(
        bus,
        Causes {
            length: !fit,
            page: page_missing(bus, page),
            ..Causes::default()
        },
    )
}

// Of the three that hand back a part a Rattle caller lends no answer, and gives the length that fits.
#[tactic(auto, unfolding(crate::specs::Judges::judge_ram_page, crate::specs::Refusals::judged))]
pub fn judge_ram_page(state: &[u8], ram: usize, page: u32, answer: usize) -> Result<Bus, Refusal>
    ensures verdict { result ≡ judge_ram_page state.now ram page (number_fits answer) }
    ensures answer { IfOk result (λ bus. answer ≡ number_length) }
{
    let bus = record::look(state)?;
    let fit = ram_fits(bus, ram) & (answer == NUMBER_LENGTH);
    first_cause(
        bus,
        Causes {
            length: !fit,
            page: page_missing(bus, page),
            ..Causes::default()
        },
    )
}

#[tactic(auto, unfolding(crate::specs::Judges::judge_block, crate::specs::Refusals::judged))]
pub fn judge_block(
    state: &[u8],
    rom: usize,
    ram: usize,
    block: u32,
    answer: usize,
) -> Result<Bus, Refusal>
    ensures verdict { result ≡ judge_block state.now rom ram block (number_fits answer) }
    ensures answer { IfOk result (λ bus. answer ≡ number_length) }
{
    let bus = record::look(state)?;
    let fit = rom_fits(bus, rom) & ram_fits(bus, ram) & (answer == NUMBER_LENGTH);
    first_cause(
        bus,
        Causes {
            length: !fit,
            number: 3 < block,
            ..Causes::default()
        },
    )
}

#[tactic(auto, unfolding(crate::specs::Judges::judge_shown, crate::specs::Refusals::judged))]
pub fn judge_shown(state: &[u8], a: usize, b: usize, answer: usize) -> Result<Bus, Refusal>
    ensures verdict { result ≡ judge_shown state.now a b (number_fits answer) }
    ensures answer { IfOk result (λ bus. answer ≡ number_length) }
{
    let bus = record::look(state)?;
    let fit = (a == machine::PICTURE_LENGTH)
        & (b == machine::PICTURE_LENGTH)
        & (answer == NUMBER_LENGTH);
    first_cause(
        bus,
        Causes {
            length: !fit,
            ..Causes::default()
        },
    )
}

#[tactic(auto, unfolding(crate::specs::Judges::judge_still, crate::specs::Refusals::judged))]
pub fn judge_still(state: &[u8], ram: usize, picture: usize, flash: u32) -> Result<Bus, Refusal>
    ensures { result ≡ judge_still state.now ram picture flash }
{
    let bus = record::look(state)?;
    let fit = ram_fits(bus, ram) & (picture == machine::PICTURE_LENGTH);
    first_cause(
        bus,
        Causes {
            length: !fit,
            number: 1 < flash,
            ..Causes::default()
        },
    )
}

// The slices of a screen file's calls: RAM, and the file.
fn screen_fits(bus: Bus, ram: usize, file: usize) -> bool
    ensures { result ≡ screen_fits bus ram file }
{
    ram_fits(bus, ram) & (file == memory::SCREEN_LENGTH)
}

// The shown page is always a video page, so that saving judges none.
#[tactic(auto, unfolding(crate::specs::Judges::judge_save_scr, crate::specs::Refusals::judged))]
pub fn judge_save_scr(state: &[u8], ram: usize, file: usize) -> Result<Bus, Refusal>
    ensures { result ≡ judge_save_scr state.now ram file }
{
    let bus = record::look(state)?;
    first_cause(
        bus,
        Causes {
            length: !screen_fits(bus, ram, file),
            ..Causes::default()
        },
    )
}

#[tactic(auto, unfolding(crate::specs::Judges::judge_load_scr, crate::specs::Refusals::judged))]
pub fn judge_load_scr(state: &[u8], ram: usize, file: usize, page: u32) -> Result<Bus, Refusal>
    ensures { result ≡ judge_load_scr state.now ram file page }
{
    let bus = record::look(state)?;
    first_cause(
        bus,
        Causes {
            length: !screen_fits(bus, ram, file),
            page: page_missing(bus, page),
            video: !memory::is_video_page(bus.machine, page),
            ..Causes::default()
        },
    )
}

#[tactic(auto, unfolding(crate::specs::Judges::judge_save_sna, crate::specs::Refusals::judged))]
pub fn judge_save_sna(
    state: &[u8],
    ram: usize,
    file: usize,
    registers: usize,
) -> Result<Bus, Refusal>
    ensures { result ≡ judge_save_sna state.now ram file registers }
{
    let bus = record::look(state)?;
    let fit = ram_fits(bus, ram) & (registers == snapshot::REGISTERS_LENGTH);
    first_cause(
        bus,
        Causes {
            length: !fit,
            size: file != snapshot::due_size(Map::from(bus)),
            ..Causes::default()
        },
    )
}

// The slices of a start, and of an import.
pub fn start_fits(m: ZXMachine, state: usize, ram: usize, a: usize, b: usize, border: usize) -> bool
    ensures { result ≡ start_fits m state ram a b border }
{
    let specs = m.specs();
    (state == record::LENGTH)
        & (ram == specs.ram)
        & (a == machine::PICTURE_LENGTH)
        & (b == machine::PICTURE_LENGTH)
        & (border == machine::BORDER_LENGTH)
}

// A refused call: its answer of `size` bytes holds the number and then zeros, and is left alone where its length is wrong.
#[tactic(auto, using(crate::proofs::Zeros::headed), unfolding(crate::specs::Answers::refused_answer))]
pub fn refuse(answer: &mut [u8], size: usize, e: Refusal) -> u8
    requires { 0 < size }
    ensures { (result ≡ refusal_number e) × (answer.new ≡ refused_answer size (refusal_number e) answer.old) }
{
    let n = u8::from(e);
    if answer.len() == size {
        answer.fill(0);
        answer[0] = n;
    }
    n
}

// The answer of an accepted timed call. Kept: the answer's length is asked, as of every slice that is lent to be written (crate record, `encode`).
pub fn fill_timed(
    answer: &mut [u8],
    value: u8,
    closed: bool,
    interrupt: bool,
    clocks: u32,
    blocks: u32,
)
    requires { length answer.old ≡ timed_length }
    ensures { answer.new ≡ timed_answer value closed interrupt clocks blocks }
{
    let [c0, c1, c2, c3] = clocks.to_le_bytes();
    let [b0, b1, ..] = blocks.to_le_bytes();
    let (closed, interrupt) = (u8::from(closed), u8::from(interrupt));
    answer.copy_from_slice(&[0, value, closed, interrupt, c0, c1, c2, c3, b0, b1]);
}

// The answer of another accepted call with a number to give.
pub fn fill_number(answer: &mut [u8], n: u32)
    requires { length answer.old ≡ number_length }
    ensures { answer.new ≡ number_answer n }
{
    let [n0, n1, n2, n3] = n.to_le_bytes();
    answer.copy_from_slice(&[0, n0, n1, n2, n3]);
}

// The end of a call with a number to give: its answer, and what it returns.
pub fn tell(answer: &mut [u8], number: Result<u32, Refusal>) -> u8
    requires { IfOk number (λ n. length answer.old ≡ number_length) }
    ensures code { result ≡ told_code number }
    ensures answer { answer.new ≡ told_answer number answer.old }
{
    match number {
        Err(e) => refuse(answer, NUMBER_LENGTH, e),
        Ok(n) => {
            fill_number(answer, n);
            0
        }
    }
}

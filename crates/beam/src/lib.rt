// What it is: the text of programs `beamat` and `heldat`, from the bytes they read to the bytes they print.
// What it promises: `report` leaves exactly the report that document 01 describes of `beamat`, or request Q-6 of `heldat`, for every input and every lent slice; it asks nothing of its caller.
// Where its definitions stand: specs/Decimal.antt (spelling of a number), specs/Meaning.antt (lines and what they mean), specs/Printed.antt (what a line prints), specs/Whole.antt (the whole report).
#![tactic(auto)]

ghost use Rattle.std.specs.Prelude.{◌≡◌, [], ◌∷◌, ◌++◌, ◌+◌, ◌*◌, ◌-◌, ◌≤◌, ◌<◌, length, drop};
ghost use Rattle.machine.specs.Numbers.{specs_of};
ghost use Rattle.machine.specs.Timing.{delay_at, first_column};
ghost use Rattle.beam.specs.Decimal.{decimal};
ghost use Rattle.beam.specs.Meaning.{model, clock_meaning, line_meaning, lines_of};
ghost use Rattle.beam.specs.Printed.{spaced, held_line, answer_to, line_report};
ghost use Rattle.beam.specs.Whole.{lines_report, reported, reported_into};
ghost use Rattle.beam.specs.Inner.{Put};

use itoa::Buffer;
use machine::{BorderPixel, Delay, ZXMachine};

// What is asked of each clock: where the beam is (program `beamat`), or whether the Z80 is held there and why (program `heldat`).
// Kept: no trait, with a type for each program: its laws would only say `title` and `answer_to` again, which have a line for each.
#[derive(Clone, Copy)]
pub enum Question {
    Beam,
    Held,
}

impl Question {
    ghost use Rattle.beam.specs.Whole.{title};

    fn title(self) -> &'static [u8]
        ensures { result.now ≡ title self }
    {
        match self {
            Question::Beam => b"ULB beam 1\n",
            Question::Held => b"ULB held 1\n",
        }
    }
}

// What a line of the input asks about: a clock of a machine's frame.
#[derive(Clone, Copy)]
pub struct Asked {
    pub machine: ZXMachine,
    pub clock: u32,
}

impl Asked {
    ghost use Rattle.beam.specs.Meaning.{model};
    ghost use Rattle.beam.specs.Printed.{fields};

    // The machine's number.
    fn model(self) -> u32
        ensures { result ≡ model self.machine }
    {
        match self.machine {
            ZXMachine::Sinclair48K => 48,
            ZXMachine::Sinclair128K => 128,
        }
    }

    fn fields(self) -> [u32; 8]
        ensures { result ≡ fields self.machine self.clock }
    {
        let Asked { machine, clock } = self;
        let held = machine.contention(clock).clocks();
        let blocks = machine.blocks_count(clock);
        let on = u32::from(machine::int_active(clock));
        match machine.next_border_pixel(clock) {
            Some(BorderPixel { line, pixel }) => [
                clock,
                held,
                blocks.lines,
                blocks.columns,
                line,
                pixel,
                0,
                on,
            ],
            None => [clock, held, blocks.lines, blocks.columns, 0, 0, 1, on],
        }
    }
}

// The lent slice has less room than the report asks for.
#[derive(Clone, Copy, Debug, PartialEq, Eq)]
pub struct NoRoom;

// Puts the report of an input at the start of out, and answers its length. The room asked is 11 bytes and 8 for each byte of
// the input, or 7 where the input is too long; where out has less, it stays as it was.
pub fn report(question: Question, input: &[u8], out: &mut [u8]) -> Result<usize, NoRoom>
    ensures value { result ≡ reported question input.now out.old }
    ensures out_after { out.new ≡ reported_into question input.now out.old }
{
    if 65536 < input.len() {
        if out.len() < 7 {
            return Err(NoRoom);
        }
        let end = put(b"! long\n", out, 0);
        return Ok(end);
    }
    let room = 11 + 8 * input.len();
    if out.len() < room {
        return Err(NoRoom);
    }
    let at = put(question.title(), out, 0);
    let end = put_lines(question, input, out, at);
    Ok(end)
}

// What a line means; none is a bad line.
pub fn line_meaning(line: &[u8]) -> Option<Asked>
    ensures { result ≡ line_meaning line.now }
{
    if let Some(clock) = line.strip_prefix(b"48 ") {
        return clock_meaning(ZXMachine::Sinclair48K, clock);
    }
    let clock = line.strip_prefix(b"128 ")?;
    clock_meaning(ZXMachine::Sinclair128K, clock)
}

// The clock that a text spells: digits only, no zero in front of others, below the frame. Past the frame it stops
// reading, so that no sum can wrap.
fn clock_meaning(machine: ZXMachine, text: &[u8]) -> Option<Asked>
    ensures { result ≡ clock_meaning machine text.now }
{
    let frame = machine.specs().frame;
    if text.is_empty() {
        return None;
    }
    if 1 < text.len() && text[0] == b'0' {
        return None;
    }
    let mut clock: u32 = 0;
    for &digit in text {
        if !digit.is_ascii_digit() || frame <= clock {
            return None;
        }
        clock = 10 * clock + u32::from(digit - b'0');
    }
    if clock < frame {
        Some(Asked { machine, clock })
    } else {
        None
    }
}

// What is printed for every line of the input. A newline belongs to the line that it ends, so a final one starts no further line.
fn put_lines(question: Question, input: &[u8], out: &mut [u8], at: usize) -> usize
    requires input_len_bound { length input.now ≤ 65536 }
    requires input_in_bounds { at + 8 * length input.now ≤ length out.old }
    ensures { Put out.old at (lines_report question 1 (lines_of input.now)) result out.new }
{
    let mut next = at;
    for (number, ended) in (1..).zip(input.split_inclusive(|&byte| byte == b'\n')) {
        let line = ended.strip_suffix(b"\n").unwrap_or(ended);
        next = put_line(question, line, number, out, next);
    }
    next
}

fn put_line(question: Question, line: &[u8], number: u32, out: &mut [u8], at: usize) -> usize
    requires { at + length (line_report question number (line_meaning line.now)) ≤ length out.old }
    ensures { Put out.old at (line_report question number (line_meaning line.now)) result out.new }
{
    match line_meaning(line) {
        Some(asked) => put_answer(question, asked, out, at),
        None => put_bad(number, out, at),
    }
}

// The machine's number, and behind it what the question asks for.
fn put_answer(question: Question, asked: Asked, out: &mut [u8], at: usize) -> usize
    requires { at + length (decimal (model asked.machine) ++ answer_to question asked.machine asked.clock) ≤ length out.old }
    ensures { Put out.old at (decimal (model asked.machine) ++ answer_to question asked.machine asked.clock) result out.new }
{
    let next = put_decimal(asked.model(), out, at);
    match question {
        Question::Beam => put_spaced(&asked.fields(), out, next),
        Question::Held => put_held(asked, out, next),
    }
}

fn put_held(asked: Asked, out: &mut [u8], at: usize) -> usize
    requires { at + length (held_line asked.clock (delay_at (specs_of asked.machine) asked.clock)) ≤ length out.old }
    ensures { Put out.old at (held_line asked.clock (delay_at (specs_of asked.machine) asked.clock)) result out.new }
{
    let Asked { machine, clock } = asked;
    match machine.contention(clock) {
        Delay::Held { line, x, clocks } => {
            let numbers = held_fields(clock, line, x, clocks);
            put_spaced(&numbers, out, at)
        }
        Delay::Outside => {
            let next = put_field(clock, out, at);
            put(b" outside\n", out, next)
        }
    }
}

// The column is the first of the two that are fetched at x.
fn held_fields(clock: u32, line: u32, x: u32, clocks: u32) -> [u32; 5]
    ensures { result ≡ clock ∷ line ∷ x ∷ first_column x ∷ clocks ∷ [] }
{
    [clock, line, x, 2 * (x / 8), clocks]
}

fn put_bad(number: u32, out: &mut [u8], at: usize) -> usize
    requires { at + length (63 ∷ 32 ∷ (decimal number ++ (10 ∷ []))) ≤ length out.old }
    ensures { Put out.old at (63 ∷ 32 ∷ (decimal number ++ (10 ∷ []))) result out.new }
{
    let next = put(b"? ", out, at);
    let last = put_decimal(number, out, next);
    out[last] = b'\n';
    last + 1
}

// Numbers, each behind a space, and a newline.
fn put_spaced(numbers: &[u32], out: &mut [u8], at: usize) -> usize
    requires { at + length (spaced numbers.now) ≤ length out.old }
    ensures { Put out.old at (spaced numbers.now) result out.new }
{
    let mut next = at;
    for &number in numbers {
        next = put_field(number, out, next);
    }
    out[next] = b'\n';
    next + 1
}

fn put_field(n: u32, out: &mut [u8], at: usize) -> usize
    requires { at + length (32 ∷ decimal n) ≤ length out.old }
    ensures { Put out.old at (32 ∷ decimal n) result out.new }
{
    out[at] = b' ';
    put_decimal(n, out, at + 1)
}

fn put_decimal(n: u32, out: &mut [u8], at: usize) -> usize
    requires { at + length (decimal n) ≤ length out.old }
    ensures { Put out.old at (decimal n) result out.new }
{
    let mut buffer = Buffer::new();
    put(buffer.format(n).as_bytes(), out, at)
}

// A text as it stands.
// Kept: a struct of the slice and the place in it, with these writers as methods, was tried and gets no proof: behind `&mut self` a
// callee may put another slice in its place, so that no caller can say what its own holds; and by value an `ensures` names no field.
fn put(text: &[u8], out: &mut [u8], at: usize) -> usize
    requires { at + length text.now ≤ length out.old }
    ensures { Put out.old at text.now result out.new }
{
    let end = at + text.len();
    out[at..end].copy_from_slice(text);
    end
}

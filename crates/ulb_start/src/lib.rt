// What it is: the two starts at the C surface: ulb_start, in black, and ulb_start_colour, which takes the beam's colour.
// What it promises: each call accepts all bytes and numbers; what it returns, and every slice that it was lent at exit, is its definition of the slices at entry and the numbers.
// Where its definitions stand: crate contracts, specs/Timed.antt; for which causes each is refused: crate judgement, specs/Judges.antt.
#![tactic(auto)]

ghost use Rattle.std.specs.Prelude.{◌≡◌};
ghost use Rattle.judgement.specs.Judges.{judge_start};
ghost use Rattle.contracts.specs.Timed.{lent, start_leaves, start_colour, start};

use judgement::Refusal;
use record::Bus;

// The causes in their order: machine, lengths, colour. Accepted, with the record that is to be written.
#[tactic(auto, unfolding(judgement::specs::Judges::judge_start, judgement::specs::Refusals::judged))]
fn judge_start(
    state: usize,
    ram: usize,
    a: usize,
    b: usize,
    border: usize,
    machine: u32,
    colour: u32,
) -> Result<Bus, Refusal>
    ensures { result ≡ judge_start state ram a b border machine colour }
{
    // Kept: C gives the machine as a number, and 01 has a refusal of its own for one above 1.
    if 1 < machine {
        return Err(Refusal::BadMachine);
    }
    let m = record::machine_from(machine as u8);
    let fits = judgement::start_fits(m, state, ram, a, b, border);
    if !fits {
        return Err(Refusal::BadLength);
    }
    if 7 < colour {
        return Err(Refusal::BadNumber);
    }
    Ok(record::start_record(m, colour as u8))
}

// The record is only written, whatever it holds; ROM is not lent, so that it cannot be touched.
#[unsafe(no_mangle)]
pub extern "C" fn ulb_start_colour(
    state: &mut [u8],
    ram: &mut [u8],
    a: &mut [u8],
    b: &mut [u8],
    border: &mut [u8],
    machine: u32,
    colour: u32,
) -> u8
    ensures { start_leaves result
        (lent state.new ram.new a.new b.new border.new)
        ≡ start_colour (lent state.old ram.old a.old b.old border.old) machine colour }
{
    match judge_start(
        state.len(),
        ram.len(),
        a.len(),
        b.len(),
        border.len(),
        machine,
        colour,
    ) {
        Err(e) => u8::from(e),
        Ok(bus) => {
            ram.fill(0);
            a.fill(0);
            b.fill(0);
            border.fill(0);
            record::encode(state, bus);
            0
        }
    }
}

// A start in black.
#[unsafe(no_mangle)]
pub extern "C" fn ulb_start(
    state: &mut [u8],
    ram: &mut [u8],
    a: &mut [u8],
    b: &mut [u8],
    border: &mut [u8],
    machine: u32,
) -> u8
    ensures { start_leaves result
        (lent state.new ram.new a.new b.new border.new)
        ≡ start (lent state.old ram.old a.old b.old border.old) machine }
{
    ulb_start_colour(state, ram, a, b, border, machine, 0)
}

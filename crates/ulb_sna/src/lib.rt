// What it is: snapshots (SNA) at the C surface: a machine that begins from one, and one written of a machine as it stands.
// What it promises: each call accepts all bytes and numbers; what it returns, and every slice that it was lent at exit, is its definition of the slices at entry and the numbers.
// Where its definitions stand: crate contracts, specs/Snapshots.antt; for which causes each is refused: crate judgement, specs/Judges.antt; what stands in a file: crate snapshot, specs/File.antt.
#![tactic(auto)]

ghost use Rattle.std.specs.Prelude.{◌≡◌};
ghost use Rattle.judgement.specs.Judges.{judge_load_sna};
ghost use Rattle.contracts.specs.Timed.{lent};
ghost use Rattle.contracts.specs.Plain.{changed};
ghost use Rattle.contracts.specs.Snapshots.{import_leaves, load_sna, save_sna};

use judgement::Refusal;
use memory::Map;
use record::Bus;
use snapshot::Snapshot;

// The causes in their order: machine, lengths, the size that is due, the copies. Accepted, with the record that is to be written.
#[tactic(auto, unfolding(judgement::specs::Judges::judge_load_sna, judgement::specs::Refusals::judged))]
fn judge_load_sna(
    state: usize,
    ram: usize,
    registers: usize,
    a: usize,
    b: usize,
    border: usize,
    machine: u32,
    file: &[u8],
) -> Result<Bus, Refusal>
    ensures { result ≡ judge_load_sna state ram registers a b border machine file.now }
{
    // Kept: C gives the machine as a number, and 01 has a refusal of its own for one above 1.
    if 1 < machine {
        return Err(Refusal::BadMachine);
    }
    let m = record::machine_from(machine as u8);
    let fits = judgement::start_fits(m, state, ram, a, b, border)
        & (registers == snapshot::REGISTERS_LENGTH);
    if !fits {
        return Err(Refusal::BadLength);
    }
    let Some(snapshot) = Snapshot::new(m, file) else {
        return Err(Refusal::WrongSize);
    };
    if snapshot.copies_differ() {
        return Err(Refusal::UnequalCopies);
    }
    Ok(snapshot.bus())
}

// The record is only written, whatever it holds; ROM is not lent, so that it cannot be touched.
#[unsafe(no_mangle)]
pub extern "C" fn ulb_load_sna(
    state: &mut [u8],
    ram: &mut [u8],
    file: &[u8],
    registers: &mut [u8],
    a: &mut [u8],
    b: &mut [u8],
    border: &mut [u8],
    machine: u32,
) -> u8
    ensures { import_leaves result
        (lent state.new ram.new a.new b.new border.new) registers.new
        ≡ load_sna (lent state.old ram.old a.old b.old border.old) file.now registers.old machine }
{
    match judge_load_sna(
        state.len(),
        ram.len(),
        registers.len(),
        a.len(),
        b.len(),
        border.len(),
        machine,
        file,
    ) {
        Err(e) => u8::from(e),
        Ok(bus) => {
            let snapshot = Snapshot {
                machine: bus.machine,
                file,
            };
            snapshot.read_ram(ram);
            snapshot.read_registers(registers);
            a.fill(0);
            b.fill(0);
            border.fill(0);
            record::encode(state, bus);
            0
        }
    }
}

// The machine as it stands, into a file of the size that is due for it.
#[tactic(auto, unfolding(contracts::specs::Snapshots::save_sna))]
#[unsafe(no_mangle)]
pub extern "C" fn ulb_save_sna(state: &[u8], ram: &[u8], file: &mut [u8], registers: &[u8]) -> u8
    ensures { changed result file.new ≡ save_sna state.now ram.now file.old registers.now }
{
    match judgement::judge_save_sna(state, ram.len(), file.len(), registers.len()) {
        Err(e) => u8::from(e),
        Ok(bus) => {
            snapshot::write_file(Map::from(bus), bus.reported, ram, registers, file);
            0
        }
    }
}

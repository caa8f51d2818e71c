// What it is: the static library of crate ulb_sna: its C functions, for libulb.a. Each calls the function of the same name there.
// What it promises: of each call what that function promises, in the same words (tools/header-check compares them).
// Where its definitions stand: crate contracts, specs/Snapshots.antt; for which causes each is refused: crate judgement, specs/Judges.antt; what stands in a file: crate snapshot, specs/File.antt.
#![tactic(auto)]

ghost use Rattle.std.specs.Prelude.{◌≡◌};
ghost use Rattle.contracts.specs.Timed.{lent};
ghost use Rattle.contracts.specs.Plain.{changed};
ghost use Rattle.contracts.specs.Snapshots.{import_leaves, load_sna, save_sna};

// The record is only written, whatever it holds; ROM is not lent, so that it cannot be touched.
#[unsafe(no_mangle)]
pub extern "C" fn ulb_load_sna(
    state: &mut [u8],
    ram: &mut [u8],
    file: &[u8],
    registers: &mut [u8],
    a: &mut [u8],
    b: &mut [u8],
    border: &mut [u8],
    machine: u32,
) -> u8
    ensures { import_leaves result
        (lent state.new ram.new a.new b.new border.new) registers.new
        ≡ load_sna (lent state.old ram.old a.old b.old border.old) file.now registers.old machine }
{
    ulb_sna::ulb_load_sna(state, ram, file, registers, a, b, border, machine)
}

// The machine as it stands, into a file of the size that is due for it.
#[unsafe(no_mangle)]
pub extern "C" fn ulb_save_sna(state: &[u8], ram: &[u8], file: &mut [u8], registers: &[u8]) -> u8
    ensures { changed result file.new ≡ save_sna state.now ram.now file.old registers.now }
{
    ulb_sna::ulb_save_sna(state, ram, file, registers)
}

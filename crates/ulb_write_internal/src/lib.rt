// What it is: the byte write at the C surface: ulb_write_internal. It stands alone so that the compiler lays it out whole (docs/DECISIONS.md, 3).
// What it promises: the call accepts all bytes and numbers; what it returns, and every slice that it was lent at exit, is its definition of the slices at entry and the numbers.
// Where its definitions stand: crate contracts, specs/Plain.antt.
#![tactic(auto)]

ghost use Rattle.std.specs.Prelude.{◌≡◌};
ghost use Rattle.contracts.specs.Plain.{changed, write_internal};

use memory::Map;

// Byte write.
#[tactic(auto, unfolding(contracts::specs::Plain::write_internal))]
#[unsafe(no_mangle)]
pub extern "C" fn ulb_write_internal(state: &[u8], ram: &mut [u8], addr: u16, value: u8) -> u8
    ensures { changed result ram.new ≡ write_internal state.now ram.old addr value }
{
    match judgement::judge_write(state, ram.len()) {
        Err(e) => u8::from(e),
        Ok(bus) => {
            Map::from(bus).write(ram, addr, value);
            0
        }
    }
}

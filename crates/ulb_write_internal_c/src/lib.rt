// What it is: the static library of crate ulb_write_internal: its C function, for libulb.a. Each calls the function of the same name there.
// What it promises: of each call what that function promises, in the same words (tools/header-check compares them).
// Where its definitions stand: crate contracts, specs/Plain.antt.
#![tactic(auto)]

ghost use Rattle.std.specs.Prelude.{◌≡◌};
ghost use Rattle.contracts.specs.Plain.{changed, write_internal};

// Byte write.
#[unsafe(no_mangle)]
pub extern "C" fn ulb_write_internal(state: &[u8], ram: &mut [u8], addr: u16, value: u8) -> u8
    ensures { changed result ram.new ≡ write_internal state.now ram.old addr value }
{
    ulb_write_internal::ulb_write_internal(state, ram, addr, value)
}

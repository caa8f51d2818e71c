// What it is: the static library of crate ulb_write_io: its C function, for libulb.a. Each calls the function of the same name there.
// What it promises: of each call what that function promises, in the same words (tools/header-check compares them).
// Where its definitions stand: crate contracts, specs/Timed.antt.
#![tactic(auto)]

ghost use Rattle.std.specs.Prelude.{◌≡◌};
ghost use Rattle.contracts.specs.Timed.{lent, outcome, write_io};

// A port write.
#[unsafe(no_mangle)]
pub extern "C" fn ulb_write_io(
    state: &mut [u8],
    devices: &[u8],
    ram: &[u8],
    a: &mut [u8],
    b: &mut [u8],
    border: &mut [u8],
    port: u16,
    value: u8,
    answer: &mut [u8],
) -> u8
    ensures { outcome result
        (lent state.new ram.now a.new b.new border.new)
        answer.new
        ≡ write_io (lent state.old ram.now a.old b.old border.old) devices.now port value answer.old }
{
    ulb_write_io::ulb_write_io(state, devices, ram, a, b, border, port, value, answer)
}

// What it is: the static library of crate ulb_read_io: its C function, for libulb.a. Each calls the function of the same name there.
// What it promises: of each call what that function promises, in the same words (tools/header-check compares them).
// Where its definitions stand: crate contracts, specs/Timed.antt.
#![tactic(auto)]

ghost use Rattle.std.specs.Prelude.{◌≡◌};
ghost use Rattle.contracts.specs.Timed.{lent, outcome, read_io};

// A port read.
#[unsafe(no_mangle)]
pub extern "C" fn ulb_read_io(
    state: &mut [u8],
    devices: &[u8],
    ram: &[u8],
    a: &mut [u8],
    b: &mut [u8],
    border: &mut [u8],
    port: u16,
    answer: &mut [u8],
) -> u8
    ensures { outcome result
        (lent state.new ram.now a.new b.new border.new)
        answer.new
        ≡ read_io (lent state.old ram.now a.old b.old border.old) devices.now port answer.old }
{
    ulb_read_io::ulb_read_io(state, devices, ram, a, b, border, port, answer)
}

// What it is: the static library of crate ulb_wait_no_mreq: its C function, for libulb.a. Each calls the function of the same name there.
// What it promises: of each call what that function promises, in the same words (tools/header-check compares them).
// Where its definitions stand: crate contracts, specs/Timed.antt.
#![tactic(auto)]

ghost use Rattle.std.specs.Prelude.{◌≡◌};
ghost use Rattle.contracts.specs.Timed.{lent, outcome, wait_at};

// A wait at an address without a memory request: it takes the same time as one with.
#[unsafe(no_mangle)]
pub extern "C" fn ulb_wait_no_mreq(
    state: &mut [u8],
    ram: &[u8],
    a: &mut [u8],
    b: &mut [u8],
    border: &mut [u8],
    addr: u16,
    clocks: u32,
    answer: &mut [u8],
) -> u8
    ensures { outcome result
        (lent state.new ram.now a.new b.new border.new)
        answer.new
        ≡ wait_at (lent state.old ram.now a.old b.old border.old) addr clocks answer.old }
{
    ulb_wait_no_mreq::ulb_wait_no_mreq(state, ram, a, b, border, addr, clocks, answer)
}

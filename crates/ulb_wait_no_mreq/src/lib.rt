// What it is: the wait without a memory request at the C surface: ulb_wait_no_mreq. It stands alone so that the compiler lays it out whole (docs/DECISIONS.md, 3).
// What it promises: the call accepts all bytes and numbers; what it returns, and every slice that it was lent at exit, is its definition of the slices at entry and the numbers.
// Where its definitions stand: crate contracts, specs/Timed.antt.
#![tactic(auto)]

ghost use Rattle.std.specs.Prelude.{◌≡◌};
ghost use Rattle.contracts.specs.Timed.{lent, outcome, wait_at};

// A wait at an address without a memory request: it takes the same time as one with.
#[unsafe(no_mangle)]
pub extern "C" fn ulb_wait_no_mreq(
    state: &mut [u8],
    ram: &[u8],
    a: &mut [u8],
    b: &mut [u8],
    border: &mut [u8],
    addr: u16,
    clocks: u32,
    answer: &mut [u8],
) -> u8
    ensures { outcome result
        (lent state.new ram.now a.new b.new border.new)
        answer.new
        ≡ wait_at (lent state.old ram.now a.old b.old border.old) addr clocks answer.old }
{
    ulb_wait_mreq::ulb_wait_mreq(state, ram, a, b, border, addr, clocks, answer)
}

// What it is: the wait with a memory request at the C surface: ulb_wait_mreq. It stands alone so that the compiler lays it out whole (docs/DECISIONS.md, 3).
// What it promises: the call accepts all bytes and numbers; what it returns, and every slice that it was lent at exit, is its definition of the slices at entry and the numbers.
// Where its definitions stand: crate contracts, specs/Timed.antt.
#![tactic(auto)]

ghost use Rattle.std.specs.Prelude.{◌≡◌};
ghost use Rattle.contracts.specs.Timed.{lent, outcome, wait_at};

// A wait at an address with a memory request.
#[unsafe(no_mangle)]
pub extern "C" fn ulb_wait_mreq(
    state: &mut [u8],
    ram: &[u8],
    a: &mut [u8],
    b: &mut [u8],
    border: &mut [u8],
    addr: u16,
    clocks: u32,
    answer: &mut [u8],
) -> u8
    ensures { outcome result
        (lent state.new ram.now a.new b.new border.new)
        answer.new
        ≡ wait_at (lent state.old ram.now a.old b.old border.old) addr clocks answer.old }
{
    match judgement::judge_wait(
        state,
        ram.len(),
        a.len(),
        b.len(),
        border.len(),
        clocks,
        answer.len(),
    ) {
        Err(e) => judgement::refuse(answer, judgement::TIMED_LENGTH, e),
        Ok(held) => {
            let begun = steps::begun(held);
            let turn = contention::wait_mreq(begun, addr, clocks, ram, a, b, border);
            timed::finish_step(turn, 0, state, answer)
        }
    }
}

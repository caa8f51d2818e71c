// What it is: the port read at the C surface: ulb_read_io. It stands alone so that the compiler lays it out whole (docs/DECISIONS.md, 3).
// What it promises: the call accepts all bytes and numbers; what it returns, and every slice that it was lent at exit, is its definition of the slices at entry and the numbers.
// Where its definitions stand: crate contracts, specs/Timed.antt.
#![tactic(auto)]

ghost use Rattle.std.specs.Prelude.{◌≡◌};
ghost use Rattle.contracts.specs.Timed.{lent, outcome, read_io};

// A port read.
#[unsafe(no_mangle)]
pub extern "C" fn ulb_read_io(
    state: &mut [u8],
    devices: &[u8],
    ram: &[u8],
    a: &mut [u8],
    b: &mut [u8],
    border: &mut [u8],
    port: u16,
    answer: &mut [u8],
) -> u8
    ensures { outcome result
        (lent state.new ram.now a.new b.new border.new)
        answer.new
        ≡ read_io (lent state.old ram.now a.old b.old border.old) devices.now port answer.old }
{
    match judgement::judge_port(
        state,
        devices,
        ram.len(),
        a.len(),
        b.len(),
        border.len(),
        answer.len(),
    ) {
        Err(e) => judgement::refuse(answer, judgement::TIMED_LENGTH, e),
        Ok(held) => {
            let begun = steps::begun(held);
            let devices = ports::devices_from(devices.try_into().unwrap());
            let read = calls::read_io(begun, devices, port, ram, a, b, border);
            let turn = read.turn;
            timed::finish_step(turn, read.value, state, answer)
        }
    }
}

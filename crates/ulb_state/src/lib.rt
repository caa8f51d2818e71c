// What it is: what the C surface tells and changes of the record alone: 7FFD write and read, interrupt, passed frames and their reset.
// What it promises: each call accepts all bytes and numbers; what it returns, and every slice that it was lent at exit, is its definition of the slices at entry and the numbers.
// Where its definitions stand: crate contracts, specs/Plain.antt.
#![tactic(auto)]

ghost use Rattle.std.specs.Prelude.{◌≡◌};
ghost use Rattle.contracts.specs.Plain.{told, changed, repaged, write7ffd_call, read7ffd, int_active, frames_count, reset_frames};

use memory::Map;
use record::Bus;

// The 7FFD write: it takes no time, and nothing is caught up.
#[tactic(auto, unfolding(contracts::specs::Plain::write7ffd_call))]
#[unsafe(no_mangle)]
pub extern "C" fn ulb_write_7ffd(state: &mut [u8], value: u8, answer: &mut [u8]) -> u8
    ensures { repaged result state.new answer.new ≡ write7ffd_call state.old value answer.old }
{
    match judgement::judge_told(state, answer.len()) {
        Err(e) => judgement::refuse(answer, judgement::NUMBER_LENGTH, e),
        Ok(bus) => {
            let paged = Map::from(bus).write_7ffd(value);
            let code = paged.code();
            let paging = paged.paging_after(bus.paging);
            record::encode(state, Bus { paging, ..bus });
            judgement::tell(answer, Ok(u32::from(code)))
        }
    }
}

// The last 7FFD byte.
#[tactic(auto, unfolding(contracts::specs::Plain::read7ffd))]
#[unsafe(no_mangle)]
pub extern "C" fn ulb_read_7ffd(state: &[u8], answer: &mut [u8]) -> u8
    ensures { told result answer.new ≡ read7ffd state.now answer.old }
{
    let judged = judgement::judge_told(state, answer.len());
    judgement::tell(answer, judged.map(|bus| u32::from(bus.paging)))
}

#[tactic(auto, unfolding(contracts::specs::Plain::int_active))]
#[unsafe(no_mangle)]
pub extern "C" fn ulb_int_active(state: &[u8], answer: &mut [u8]) -> u8
    ensures { told result answer.new ≡ int_active state.now answer.old }
{
    let judged = judgement::judge_told(state, answer.len());
    judgement::tell(
        answer,
        judged.map(|bus| u32::from(machine::int_active(bus.clock))),
    )
}

// Passed frames.
#[tactic(auto, unfolding(contracts::specs::Plain::frames_count))]
#[unsafe(no_mangle)]
pub extern "C" fn ulb_frames_count(state: &[u8], answer: &mut [u8]) -> u8
    ensures { told result answer.new ≡ frames_count state.now answer.old }
{
    let judged = judgement::judge_told(state, answer.len());
    judgement::tell(answer, judged.map(|bus| bus.passed))
}

// Passed frames go back to 0; the phase, which times flash and pictures, stays.
#[tactic(auto, unfolding(contracts::specs::Plain::reset_frames))]
#[unsafe(no_mangle)]
pub extern "C" fn ulb_reset_frame_counter(state: &mut [u8]) -> u8
    ensures { changed result state.new ≡ reset_frames state.old }
{
    match judgement::judge_state(state) {
        Err(e) => u8::from(e),
        Ok(bus) => {
            record::encode(state, Bus { passed: 0, ..bus });
            0
        }
    }
}

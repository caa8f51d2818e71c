// What it is: the static library of crate ulb_state: its C functions, for libulb.a. Each calls the function of the same name there.
// What it promises: of each call what that function promises, in the same words (tools/header-check compares them).
// Where its definitions stand: crate contracts, specs/Plain.antt.
#![tactic(auto)]

ghost use Rattle.std.specs.Prelude.{◌≡◌};
ghost use Rattle.contracts.specs.Plain.{told, changed, repaged, write7ffd_call, read7ffd, int_active, frames_count, reset_frames};

// The 7FFD write: it takes no time, and nothing is caught up.
#[unsafe(no_mangle)]
pub extern "C" fn ulb_write_7ffd(state: &mut [u8], value: u8, answer: &mut [u8]) -> u8
    ensures { repaged result state.new answer.new ≡ write7ffd_call state.old value answer.old }
{
    ulb_state::ulb_write_7ffd(state, value, answer)
}

// The last 7FFD byte.
#[unsafe(no_mangle)]
pub extern "C" fn ulb_read_7ffd(state: &[u8], answer: &mut [u8]) -> u8
    ensures { told result answer.new ≡ read7ffd state.now answer.old }
{
    ulb_state::ulb_read_7ffd(state, answer)
}

#[unsafe(no_mangle)]
pub extern "C" fn ulb_int_active(state: &[u8], answer: &mut [u8]) -> u8
    ensures { told result answer.new ≡ int_active state.now answer.old }
{
    ulb_state::ulb_int_active(state, answer)
}

// Passed frames.
#[unsafe(no_mangle)]
pub extern "C" fn ulb_frames_count(state: &[u8], answer: &mut [u8]) -> u8
    ensures { told result answer.new ≡ frames_count state.now answer.old }
{
    ulb_state::ulb_frames_count(state, answer)
}

// Passed frames go back to 0; the phase, which times flash and pictures, stays.
#[unsafe(no_mangle)]
pub extern "C" fn ulb_reset_frame_counter(state: &mut [u8]) -> u8
    ensures { changed result state.new ≡ reset_frames state.old }
{
    ulb_state::ulb_reset_frame_counter(state)
}

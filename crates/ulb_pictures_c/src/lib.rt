// What it is: the static library of crate ulb_pictures: its C functions, for libulb.a. Each calls the function of the same name there.
// What it promises: of each call what that function promises, in the same words (tools/header-check compares them).
// Where its definitions stand: crate contracts, specs/Plain.antt.
#![tactic(auto)]

ghost use Rattle.std.specs.Prelude.{◌≡◌};
ghost use Rattle.contracts.specs.Plain.{told, changed, shown_told, still_picture};

#[unsafe(no_mangle)]
pub extern "C" fn ulb_shown_picture(state: &[u8], a: &[u8], b: &[u8], answer: &mut [u8]) -> u8
    ensures { told result answer.new ≡ shown_told state.now a.now b.now answer.old }
{
    ulb_pictures::ulb_shown_picture(state, a, b, answer)
}

// The still picture, of the page that the screen now shows.
#[unsafe(no_mangle)]
pub extern "C" fn ulb_still_picture(state: &[u8], ram: &[u8], picture: &mut [u8], flash: u32) -> u8
    ensures { changed result picture.new ≡ still_picture state.now ram.now picture.old flash }
{
    ulb_pictures::ulb_still_picture(state, ram, picture, flash)
}

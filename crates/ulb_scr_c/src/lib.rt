// What it is: the static library of crate ulb_scr: its C functions, for libulb.a. Each calls the function of the same name there.
// What it promises: of each call what that function promises, in the same words (tools/header-check compares them).
// Where its definitions stand: crate contracts, specs/Plain.antt; what stands in a file: crate memory, specs/Screens.antt.
#![tactic(auto)]

ghost use Rattle.std.specs.Prelude.{◌≡◌};
ghost use Rattle.contracts.specs.Plain.{changed, save_scr, load_scr};

// The shown page's bitmap and attributes, into a file of 6,912 bytes.
#[unsafe(no_mangle)]
pub extern "C" fn ulb_save_scr(state: &[u8], ram: &[u8], file: &mut [u8]) -> u8
    ensures { changed result file.new ≡ save_scr state.now ram.now file.old }
{
    ulb_scr::ulb_save_scr(state, ram, file)
}

// A file's 6,912 bytes, into the front of a video page.
#[unsafe(no_mangle)]
pub extern "C" fn ulb_load_scr(state: &[u8], ram: &mut [u8], file: &[u8], page: u32) -> u8
    ensures { changed result ram.new ≡ load_scr state.now ram.old file.now page }
{
    ulb_scr::ulb_load_scr(state, ram, file, page)
}

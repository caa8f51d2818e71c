// What it is: screen files (SCR) at the C surface: one written from the shown page, and one read into a video page.
// What it promises: each call accepts all bytes and numbers; what it returns, and every slice that it was lent at exit, is its definition of the slices at entry and the numbers.
// Where its definitions stand: crate contracts, specs/Plain.antt; what stands in a file: crate memory, specs/Screens.antt.
#![tactic(auto)]

ghost use Rattle.std.specs.Prelude.{◌≡◌};
ghost use Rattle.contracts.specs.Plain.{changed, save_scr, load_scr};

use memory::Map;

// The shown page's bitmap and attributes, into a file of 6,912 bytes.
#[tactic(auto, unfolding(contracts::specs::Plain::save_scr))]
#[unsafe(no_mangle)]
pub extern "C" fn ulb_save_scr(state: &[u8], ram: &[u8], file: &mut [u8]) -> u8
    ensures { changed result file.new ≡ save_scr state.now ram.now file.old }
{
    match judgement::judge_save_scr(state, ram.len(), file.len()) {
        Err(e) => u8::from(e),
        Ok(bus) => {
            let page = Map::from(bus).screen_bank();
            memory::save_screen(ram, page, file);
            0
        }
    }
}

// A file's 6,912 bytes, into the front of a video page.
#[tactic(auto, unfolding(contracts::specs::Plain::load_scr))]
#[unsafe(no_mangle)]
pub extern "C" fn ulb_load_scr(state: &[u8], ram: &mut [u8], file: &[u8], page: u32) -> u8
    ensures { changed result ram.new ≡ load_scr state.now ram.old file.now page }
{
    match judgement::judge_load_scr(state, ram.len(), file.len(), page) {
        Err(e) => u8::from(e),
        Ok(_) => {
            memory::load(ram, page, file);
            0
        }
    }
}

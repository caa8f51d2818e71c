// What it is: pictures at the C surface: which of the two is shown, as a part to Rattle and by its start to C, and the still picture.
// What it promises: each call accepts all bytes and numbers; what it returns, and every slice that it was lent at exit, is its definition of the slices at entry and the numbers.
// Where its definitions stand: crate contracts, specs/Plain.antt.
#![tactic(auto)]

ghost use Rattle.std.specs.Prelude.{◌≡◌, cond};
ghost use Rattle.bus.specs.Time.{shows_a};
ghost use Rattle.contracts.specs.Plain.{told, changed, shown_told, still_picture, shown_part};
ghost use Rattle.machine.specs.Limits.{picture_length};

use memory::Map;

#[tactic(auto, unfolding(contracts::specs::Plain::shown_told))]
#[unsafe(no_mangle)]
pub extern "C" fn ulb_shown_picture(state: &[u8], a: &[u8], b: &[u8], answer: &mut [u8]) -> u8
    ensures { told result answer.new ≡ shown_told state.now a.now b.now answer.old }
{
    let judged = judgement::judge_shown(state, a.len(), b.len(), answer.len());
    judgement::tell(answer, judged.map(|bus| shown_start(bus.phase)))
}

// A is shown in even phases, and B, which is counted after A, in odd ones.
fn shown_start(phase: u8) -> u32
    ensures { result ≡ cond (shows_a phase) 0 picture_length }
{
    if phase % 2 == 0 {
        0
    } else {
        machine::PICTURE_LENGTH as u32
    }
}

// The shown picture, of the two lent ones.
#[tactic(auto, unfolding(contracts::specs::Plain::shown_part))]
pub fn shown_picture<'a>(state: &[u8], a: &'a [u8], b: &'a [u8]) -> &'a [u8]
    ensures { result.now ≡ shown_part state.now a.now b.now }
{
    match judgement::judge_shown(state, a.len(), b.len(), judgement::NUMBER_LENGTH) {
        Err(_) => &a[..0],
        Ok(bus) => { if bus.phase % 2 == 0 { a } else { b } }
    }
}

// The still picture, of the page that the screen now shows.
#[tactic(auto, unfolding(contracts::specs::Plain::still_picture))]
#[unsafe(no_mangle)]
pub extern "C" fn ulb_still_picture(state: &[u8], ram: &[u8], picture: &mut [u8], flash: u32) -> u8
    ensures { changed result picture.new ≡ still_picture state.now ram.now picture.old flash }
{
    match judgement::judge_still(state, ram.len(), picture.len(), flash) {
        Err(e) => u8::from(e),
        Ok(bus) => {
            let shown = Map::from(bus).screen_bank();
            let page = memory::ram_page_data(ram, u32::from(shown));
            paint::still(page, picture, flash == 1);
            0
        }
    }
}

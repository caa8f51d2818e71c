// What it is: memory at the C surface: byte read, page load, and the RAM page or block handed back, as a part to Rattle and by its start to C.
// What it promises: each call accepts all bytes and numbers; what it returns, and every slice that it was lent at exit, is its definition of the slices at entry and the numbers.
// Where its definitions stand: crate contracts, specs/Plain.antt.
#![tactic(auto)]

ghost use Rattle.std.specs.Prelude.{◌≡◌};
ghost use Rattle.contracts.specs.Plain.{told, changed, read_internal, load_page, ram_page_told, block_told, ram_page_part, block_part};

use memory::{Map, Page};

// Byte read.
#[tactic(auto, unfolding(contracts::specs::Plain::read_internal))]
#[unsafe(no_mangle)]
pub extern "C" fn ulb_read_internal(
    state: &[u8],
    rom: &[u8],
    ram: &[u8],
    addr: u16,
    answer: &mut [u8],
) -> u8
    ensures { told result answer.new ≡ read_internal state.now rom.now ram.now addr answer.old }
{
    match judgement::judge_read(state, rom.len(), ram.len(), answer.len()) {
        Err(e) => judgement::refuse(answer, judgement::NUMBER_LENGTH, e),
        Ok(bus) => {
            let value = Map::from(bus).read(rom, ram, addr);
            judgement::tell(answer, Ok(u32::from(value)))
        }
    }
}

// Page load: 16,384 lent bytes into a RAM page.
#[tactic(auto, unfolding(contracts::specs::Plain::load_page))]
#[unsafe(no_mangle)]
pub extern "C" fn ulb_load_page(state: &[u8], ram: &mut [u8], src: &[u8], page: u32) -> u8
    ensures { changed result ram.new ≡ load_page state.now ram.old src.now page }
{
    match judgement::judge_load(state, ram.len(), src.len(), page) {
        Err(e) => u8::from(e),
        Ok(_) => {
            memory::load(ram, page, src);
            0
        }
    }
}

#[tactic(auto, unfolding(contracts::specs::Plain::ram_page_told))]
#[unsafe(no_mangle)]
pub extern "C" fn ulb_ram_page(state: &[u8], ram: &[u8], page: u32, answer: &mut [u8]) -> u8
    ensures { told result answer.new ≡ ram_page_told state.now ram.now page answer.old }
{
    match judgement::judge_ram_page(state, ram.len(), page, answer.len()) {
        Err(e) => judgement::refuse(answer, judgement::NUMBER_LENGTH, e),
        Ok(bus) => {
            let start = memory::part_start(bus.machine, Page::Ram(page as u8));
            judgement::tell(answer, Ok(start))
        }
    }
}

#[tactic(auto, unfolding(contracts::specs::Plain::block_told))]
#[unsafe(no_mangle)]
pub extern "C" fn ulb_block(
    state: &[u8],
    rom: &[u8],
    ram: &[u8],
    block: u32,
    answer: &mut [u8],
) -> u8
    ensures { told result answer.new ≡ block_told state.now rom.now ram.now block answer.old }
{
    let judged = judgement::judge_block(state, rom.len(), ram.len(), block, answer.len());
    let start = judged.map(|bus| memory::part_start(
        bus.machine,
        Map::from(bus).get_bank_type(block),
    ));
    judgement::tell(answer, start)
}

// A RAM page by its number; an empty part where the call is refused.
#[tactic(auto, unfolding(contracts::specs::Plain::ram_page_part))]
pub fn ram_page<'a>(state: &[u8], ram: &'a [u8], page: u32) -> &'a [u8]
    ensures { result.now ≡ ram_page_part state.now ram.now page }
{
    match judgement::judge_ram_page(state, ram.len(), page, judgement::NUMBER_LENGTH) {
        Err(_) => &ram[..0],
        Ok(_) => memory::ram_page_data(ram, page),
    }
}

// The 16 KiB at a block, as a part of the lent ROM or RAM.
#[tactic(auto, unfolding(contracts::specs::Plain::block_part))]
pub fn block<'a>(state: &[u8], rom: &'a [u8], ram: &'a [u8], block: u32) -> &'a [u8]
    ensures { result.now ≡ block_part state.now rom.now ram.now block }
{
    match judgement::judge_block(state, rom.len(), ram.len(), block, judgement::NUMBER_LENGTH) {
        Err(_) => &rom[..0],
        Ok(bus) => {
            let page = Map::from(bus).get_bank_type(block);
            memory::page_data(page, rom, ram)
        }
    }
}

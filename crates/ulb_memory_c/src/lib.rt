// What it is: the static library of crate ulb_memory: its C functions, for libulb.a. Each calls the function of the same name there.
// What it promises: of each call what that function promises, in the same words (tools/header-check compares them).
// Where its definitions stand: crate contracts, specs/Plain.antt.
#![tactic(auto)]

ghost use Rattle.std.specs.Prelude.{◌≡◌};
ghost use Rattle.contracts.specs.Plain.{told, changed, read_internal, load_page, ram_page_told, block_told};

// Byte read.
#[unsafe(no_mangle)]
pub extern "C" fn ulb_read_internal(
    state: &[u8],
    rom: &[u8],
    ram: &[u8],
    addr: u16,
    answer: &mut [u8],
) -> u8
    ensures { told result answer.new ≡ read_internal state.now rom.now ram.now addr answer.old }
{
    ulb_memory::ulb_read_internal(state, rom, ram, addr, answer)
}

// Page load: 16,384 lent bytes into a RAM page.
#[unsafe(no_mangle)]
pub extern "C" fn ulb_load_page(state: &[u8], ram: &mut [u8], src: &[u8], page: u32) -> u8
    ensures { changed result ram.new ≡ load_page state.now ram.old src.now page }
{
    ulb_memory::ulb_load_page(state, ram, src, page)
}

#[unsafe(no_mangle)]
pub extern "C" fn ulb_ram_page(state: &[u8], ram: &[u8], page: u32, answer: &mut [u8]) -> u8
    ensures { told result answer.new ≡ ram_page_told state.now ram.now page answer.old }
{
    ulb_memory::ulb_ram_page(state, ram, page, answer)
}

#[unsafe(no_mangle)]
pub extern "C" fn ulb_block(
    state: &[u8],
    rom: &[u8],
    ram: &[u8],
    block: u32,
    answer: &mut [u8],
) -> u8
    ensures { told result answer.new ≡ block_told state.now rom.now ram.now block answer.old }
{
    ulb_memory::ulb_block(state, rom, ram, block, answer)
}

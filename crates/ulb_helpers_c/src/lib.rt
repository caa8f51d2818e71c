// What it is: the static library of crate ulb_helpers: its C functions, for libulb.a. Each calls the function of the same name there.
// What it promises: of each call what that function promises, in the same words (tools/header-check compares them).
// Where its definitions stand: crate contracts, specs/Helpers.antt.
#![tactic(auto)]

ghost use Rattle.std.specs.Prelude.{◌≡◌};
ghost use Rattle.contracts.specs.Plain.{told};
ghost use Rattle.contracts.specs.Helpers.{bitmap_line_addr, bitmap_line_rel, bitmap_col_rel, attr_row_rel, attr_col_rel, color_from_bits};

#[unsafe(no_mangle)]
pub extern "C" fn ulb_bitmap_line_addr(line: u32, answer: &mut [u8]) -> u8
    ensures { told result answer.new ≡ bitmap_line_addr line answer.old }
{
    ulb_helpers::ulb_bitmap_line_addr(line, answer)
}

#[unsafe(no_mangle)]
pub extern "C" fn ulb_bitmap_line_rel(addr: u32, answer: &mut [u8]) -> u8
    ensures { told result answer.new ≡ bitmap_line_rel addr answer.old }
{
    ulb_helpers::ulb_bitmap_line_rel(addr, answer)
}

#[unsafe(no_mangle)]
pub extern "C" fn ulb_bitmap_col_rel(addr: u32, answer: &mut [u8]) -> u8
    ensures { told result answer.new ≡ bitmap_col_rel addr answer.old }
{
    ulb_helpers::ulb_bitmap_col_rel(addr, answer)
}

#[unsafe(no_mangle)]
pub extern "C" fn ulb_attr_row_rel(addr: u32, answer: &mut [u8]) -> u8
    ensures { told result answer.new ≡ attr_row_rel addr answer.old }
{
    ulb_helpers::ulb_attr_row_rel(addr, answer)
}

#[unsafe(no_mangle)]
pub extern "C" fn ulb_attr_col_rel(addr: u32, answer: &mut [u8]) -> u8
    ensures { told result answer.new ≡ attr_col_rel addr answer.old }
{
    ulb_helpers::ulb_attr_col_rel(addr, answer)
}

#[unsafe(no_mangle)]
pub extern "C" fn ulb_color_from_bits(bits: u32, answer: &mut [u8]) -> u8
    ensures { told result answer.new ≡ color_from_bits bits answer.old }
{
    ulb_helpers::ulb_color_from_bits(bits, answer)
}

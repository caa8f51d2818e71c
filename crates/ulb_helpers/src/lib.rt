// What it is: the five address helpers and the colour of a number, at the C surface.
// What it promises: each call accepts all bytes and numbers; what it returns, and every slice that it was lent at exit, is its definition of the slices at entry and the numbers.
// Where its definitions stand: crate contracts, specs/Helpers.antt.
#![tactic(auto)]

ghost use Rattle.std.specs.Prelude.{◌≡◌};
ghost use Rattle.contracts.specs.Plain.{told};
ghost use Rattle.contracts.specs.Helpers.{colour_helped, helper_call, bitmap_line_addr, bitmap_line_rel, bitmap_col_rel, attr_row_rel, attr_col_rel, color_from_bits};

use judgement::Refusal;
use screen::ZXColor;

// The answer's length is judged before the helper's number.
#[tactic(auto, unfolding(contracts::specs::Helpers::helper_call))]
fn help(helped: Option<u32>, answer: &mut [u8]) -> u8
    ensures { told result answer.new ≡ helper_call helped answer.old }
{
    if answer.len() == judgement::NUMBER_LENGTH {
        judgement::tell(answer, helped.ok_or(Refusal::BadNumber))
    } else {
        u8::from(Refusal::BadLength)
    }
}

#[unsafe(no_mangle)]
pub extern "C" fn ulb_bitmap_line_addr(line: u32, answer: &mut [u8]) -> u8
    ensures { told result answer.new ≡ bitmap_line_addr line answer.old }
{
    help(screen::bitmap_line_addr(line), answer)
}

#[unsafe(no_mangle)]
pub extern "C" fn ulb_bitmap_line_rel(addr: u32, answer: &mut [u8]) -> u8
    ensures { told result answer.new ≡ bitmap_line_rel addr answer.old }
{
    help(screen::bitmap_line_rel(addr), answer)
}

#[unsafe(no_mangle)]
pub extern "C" fn ulb_bitmap_col_rel(addr: u32, answer: &mut [u8]) -> u8
    ensures { told result answer.new ≡ bitmap_col_rel addr answer.old }
{
    help(screen::bitmap_col_rel(addr), answer)
}

#[unsafe(no_mangle)]
pub extern "C" fn ulb_attr_row_rel(addr: u32, answer: &mut [u8]) -> u8
    ensures { told result answer.new ≡ attr_row_rel addr answer.old }
{
    help(screen::attr_row_rel(addr), answer)
}

#[unsafe(no_mangle)]
pub extern "C" fn ulb_attr_col_rel(addr: u32, answer: &mut [u8]) -> u8
    ensures { told result answer.new ≡ attr_col_rel addr answer.old }
{
    help(screen::attr_col_rel(addr), answer)
}

// A colour is given by its number.
fn colour_helped(colour: Option<ZXColor>) -> Option<u32>
    ensures { result ≡ colour_helped colour }
{
    colour.map(|c| u32::from(c.bits()))
}

#[unsafe(no_mangle)]
pub extern "C" fn ulb_color_from_bits(bits: u32, answer: &mut [u8]) -> u8
    ensures { told result answer.new ≡ color_from_bits bits answer.old }
{
    help(colour_helped(ZXColor::from_bits(bits)), answer)
}

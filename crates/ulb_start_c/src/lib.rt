// What it is: the static library of crate ulb_start: its C functions, for libulb.a. Each calls the function of the same name there.
// What it promises: of each call what that function promises, in the same words (tools/header-check compares them).
// Where its definitions stand: crate contracts, specs/Timed.antt; for which causes each is refused: crate judgement, specs/Judges.antt.
#![tactic(auto)]

ghost use Rattle.std.specs.Prelude.{◌≡◌};
ghost use Rattle.contracts.specs.Timed.{lent, start_leaves, start_colour, start};

// The record is only written, whatever it holds; ROM is not lent, so that it cannot be touched.
#[unsafe(no_mangle)]
pub extern "C" fn ulb_start_colour(
    state: &mut [u8],
    ram: &mut [u8],
    a: &mut [u8],
    b: &mut [u8],
    border: &mut [u8],
    machine: u32,
    colour: u32,
) -> u8
    ensures { start_leaves result
        (lent state.new ram.new a.new b.new border.new)
        ≡ start_colour (lent state.old ram.old a.old b.old border.old) machine colour }
{
    ulb_start::ulb_start_colour(state, ram, a, b, border, machine, colour)
}

// A start in black.
#[unsafe(no_mangle)]
pub extern "C" fn ulb_start(
    state: &mut [u8],
    ram: &mut [u8],
    a: &mut [u8],
    b: &mut [u8],
    border: &mut [u8],
    machine: u32,
) -> u8
    ensures { start_leaves result
        (lent state.new ram.new a.new b.new border.new)
        ≡ start (lent state.old ram.old a.old b.old border.old) machine }
{
    ulb_start::ulb_start(state, ram, a, b, border, machine)
}

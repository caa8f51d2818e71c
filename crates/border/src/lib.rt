// What it is: the border of the frame, after rustzx's video/border.rs: the fill, a border write at a clock, and a frame's closing.
// What it promises: the beam and all 76,800 lent pixels at exit are what document 01's border rules make of those at entry.
// Where its definitions stand: specs/Edge.antt.
#![tactic(auto)]

ghost use Rattle.std.specs.Prelude.{◌≡◌, ◌*◌, ◌≤◌, length};
ghost use Rattle.machine.specs.Numbers.{specs_of};
ghost use Rattle.machine.specs.Timing.{border_at};
ghost use Rattle.machine.specs.Limits.{border_length};
ghost use Rattle.border.specs.Edge.{filled, edge_of, inked, finished};

use machine::ZXMachine;

// The border's beam: the colour that it paints in, whether this frame is painted to its end, and its position in pixel pairs.
// Kept: a flag and a position side by side, as 01's state record has them; its soundness speaks of each ("blocked only at frame end with pairs 0").
#[derive(Clone, Copy)]
pub struct Beam {
    pub colour: u8,
    pub blocked: bool,
    pub pairs: u16,
}

impl Beam {
    // The pixel that it paints next.
    fn pixel(self) -> usize
        ensures { result ≡ 2 * self.pairs }
    {
        2 * usize::from(self.pairs)
    }
}

// Pixels from `from` up to `to` in one colour, which are none where `from` is not below `to`.
#[tactic(auto, using(crate::proofs::Fills::filled_none, crate::proofs::Fills::filled_part))]
fn fill(border: &mut [u8], from: usize, to: usize, colour: u8)
    requires { to ≤ length border.old }
    ensures { border.new ≡ filled from to colour border.old }
{
    if from < to {
        border[from..to].fill(colour);
    }
}

// A border write at a clock: what the beam has passed is painted in the old colour, and it goes on in the new one.
// Kept: the length is asked, since C lends slices. An array lent from a slice was tried: what the slice holds afterwards is not proved.
#[tactic(auto, unfolding(crate::specs::Edge::inked, crate::specs::Edge::inked_at))]
pub fn set_border(
    beam: Beam,
    machine: ZXMachine,
    clocks: u32,
    colour: u8,
    border: &mut [u8],
) -> Beam
    requires { length border.old ≡ border_length }
    ensures { edge_of result border.new ≡ inked (border_at (specs_of machine) clocks) colour (edge_of beam border.old) }
{
    if beam.blocked {
        return Beam { colour, ..beam };
    }
    let from = beam.pixel();
    match machine.next_border_pixel(clocks) {
        Some(place) => {
            let to = 320 * place.line + place.pixel;
            fill(border, from, to as usize, beam.colour);
            Beam {
                colour,
                blocked: false,
                pairs: (to / 2) as u16,
            }
        }
        None => {
            fill(border, from, machine::BORDER_LENGTH, beam.colour);
            Beam {
                colour,
                blocked: true,
                pairs: 0,
            }
        }
    }
}

// A frame's closing: the rest of the border is painted, and the beam goes back to the first pixel.
#[tactic(auto, unfolding(crate::specs::Edge::finished))]
pub fn new_frame(beam: Beam, border: &mut [u8]) -> Beam
    requires { length border.old ≡ border_length }
    ensures { edge_of result border.new ≡ finished (edge_of beam border.old) }
{
    if !beam.blocked {
        fill(border, beam.pixel(), machine::BORDER_LENGTH, beam.colour);
    }
    Beam {
        blocked: false,
        pairs: 0,
        ..beam
    }
}

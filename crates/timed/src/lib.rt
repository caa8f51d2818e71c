// What it is: the end of an accepted timed call: the record and the answer are written.
// What it promises: the record's bytes are those of the turn's record, all of them or only those that have moved, and the answer has the turn's reports.
// Where its definitions stand: crate record, specs/Record.antt (the bytes); crate judgement, specs/Answers.antt (the answer); what a timed call does when it is refused or accepted, for each of the C crates, in proofs/Timing.antt.
#![tactic(auto)]

ghost use Rattle.std.specs.Prelude.{◌≡◌, false, length};
ghost use Rattle.machine.specs.Timing.{interrupt};
ghost use Rattle.record.specs.Record.{record_bytes, record_length, advanced};
ghost use Rattle.judgement.specs.Answers.{timed_answer, timed_length};

use steps::Turning;

// The answer of a turn.
fn tell(t: Turning, value: u8, answer: &mut [u8])
    requires { length answer.old ≡ timed_length }
    ensures { answer.new ≡ timed_answer value t.closed (interrupt t.bus.clock) t.clocks t.blocks }
{
    let interrupt = machine::int_active(t.bus.clock);
    judgement::fill_timed(answer, value, t.closed, interrupt, t.clocks, t.blocks);
}

// The end of a call that may have changed any field.
pub fn finish(t: Turning, value: u8, state: &mut [u8], answer: &mut [u8]) -> u8
    requires { (length state.old ≡ record_length) × (length answer.old ≡ timed_length) }
    ensures { (result ≡ 0) × (state.new ≡ record_bytes t.bus)
        × (answer.new ≡ timed_answer value t.closed (interrupt t.bus.clock) t.clocks t.blocks) }
{
    record::encode(state, t.bus);
    tell(t, value, answer);
    0
}

// The end of a call that was one step: within the frame only clock and painted blocks have moved.
pub fn finish_step(t: Turning, value: u8, state: &mut [u8], answer: &mut [u8]) -> u8
    requires { (length state.old ≡ record_length) × (length answer.old ≡ timed_length)
        × (t.closed ≡ false → advanced state.old t.bus.clock t.bus.painted ≡ record_bytes t.bus) }
    ensures { (result ≡ 0) × (state.new ≡ record_bytes t.bus)
        × (answer.new ≡ timed_answer value t.closed (interrupt t.bus.clock) t.clocks t.blocks) }
{
    if t.closed {
        return finish(t, value, state, answer);
    }
    record::advance(state, t.bus.clock, t.bus.painted);
    tell(t, value, answer);
    0
}

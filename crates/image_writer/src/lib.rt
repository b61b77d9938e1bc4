// The state written as plain 64-bit words, for hosts that are not written in Rattle and for storing it.
#![tactic(auto)]

ghost use Rattle.std.specs.Prelude.{◌≡◌, length, set};
ghost use Rattle.image_fields.specs.Fields.{phase_number};
ghost use Rattle.image_fields.specs.Image.{image_length, word_place, scalars_of, image_of, state_of};

use decoder::Decoder;
use image_words::{READS, REGISTERS, WRITES};
use recogniser::Phase;

// The number of this layout; another layout takes another.
const LAYOUT: u64 = 3;

fn phase_number(phase: Phase) -> u64
    ensures { result ≡ phase_number phase }
{
    match phase {
        Phase::Hunt => 0,
        Phase::Body => 1,
        Phase::Field3 => 2,
        Phase::Field4 => 3,
        Phase::Field5 => 4,
    }
}

// Everything but the arrays, with the number for the phase.
fn scalars(d: Decoder, phase: u64) -> [u64; REGISTERS]
    ensures { result ≡ set (scalars_of d) (word_place "phase") phase }
{
    let plan = d.plan;
    let recogniser = d.recogniser;
    let model = d.model;
    let counters = model.counters;
    let warnings = model.warnings;
    let earlier = d.earlier;
    [
        LAYOUT,
        plan.mask as u64,
        plan.csr as u64,
        plan.feen as u64,
        plan.cnt as u64,
        d.next,
        phase,
        recogniser.shift as u64,
        recogniser.command as u64,
        recogniser.address as u64,
        recogniser.count as u64,
        recogniser.held as u64,
        recogniser.group as u64,
        recogniser.unsteady as u64,
        model.running as u64,
        counters.l1id as u64,
        counters.base,
        warnings.wlv1 as u64,
        warnings.wfst as u64,
        warnings.wslw as u64,
        earlier.time,
        earlier.kind as u64,
    ]
}

// Writes the state's image. Read back, it is that state.
pub fn write(d: Decoder, image: &mut [u64])
    requires { length image.old ≡ image_length }
    ensures image_after { image.new ≡ image_of d }
    ensures image_after_2 { state_of image.new ≡ d }
{
    let recogniser = d.recogniser;
    let phase = recogniser.phase;
    let model = d.model;
    let registers = model.registers;
    let pointers = model.pointers;
    let writes = pointers.writes;
    let reads = pointers.reads;
    image_words::put_scalars(image, scalars(d, phase_number(phase)));
    image_words::put_u16(image, REGISTERS, registers);
    image_words::put_u8(image, WRITES, writes);
    image_words::put_u8(image, READS, reads);
}

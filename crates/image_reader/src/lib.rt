// The state read from plain 64-bit words.
#![tactic(auto)]

ghost use Rattle.std.specs.Prelude.{◌≡◌, length};
ghost use Rattle.image_fields.specs.Fields.{phase_of, plan_from, recogniser_from, model_from, earlier_from};
ghost use Rattle.image_fields.specs.Image.{image_length, numbers_of, state_of};

use decoder::Decoder;
use image_words::{READS, REGISTERS, WRITES};
use plans::Plan;
use recogniser::{Phase, Recogniser};
use registers::{Counters, Model, Pointers, Warnings};
use timing::Earlier;

// Where each scalar stands, by the order of the fields.
const MASK: usize = 1;

const CSR: usize = MASK + 1;

const FEEN: usize = CSR + 1;

const CNT: usize = FEEN + 1;

const NEXT: usize = CNT + 1;

const PHASE: usize = NEXT + 1;

const SHIFT: usize = PHASE + 1;

const COMMAND: usize = SHIFT + 1;

const ADDRESS: usize = COMMAND + 1;

const COUNT: usize = ADDRESS + 1;

const HELD: usize = COUNT + 1;

const GROUP: usize = HELD + 1;

const UNSTEADY: usize = GROUP + 1;

const RUNNING: usize = UNSTEADY + 1;

const L1ID: usize = RUNNING + 1;

const BASE: usize = L1ID + 1;

const WLV1: usize = BASE + 1;

const WFST: usize = WLV1 + 1;

const WSLW: usize = WFST + 1;

const EARLIER_TIME: usize = WSLW + 1;

const EARLIER_KIND: usize = EARLIER_TIME + 1;

fn phase_of(number: u64) -> Phase
    ensures { result ≡ phase_of number }
{
    match number {
        0 => Phase::Hunt,
        1 => Phase::Body,
        2 => Phase::Field3,
        3 => Phase::Field4,
        _ => Phase::Field5,
    }
}

fn plan_at(image: &[u64]) -> Plan
    requires { length image.now ≡ image_length }
    ensures { result ≡ plan_from (numbers_of image.now) }
{
    Plan {
        mask: (image[MASK] % 65536) as u16,
        csr: (image[CSR] % 256) as u8,
        feen: (image[FEEN] % 256) as u8,
        cnt: (image[CNT] % 256) as u8,
    }
}

fn recogniser_at(image: &[u64], phase: Phase) -> Recogniser
    requires { length image.now ≡ image_length }
    ensures { result ≡ recogniser_from phase (numbers_of image.now) }
{
    Recogniser {
        phase: phase,
        shift: (image[SHIFT] % 256) as u8,
        command: (image[COMMAND] % 256) as u8,
        address: (image[ADDRESS] % 256) as u8,
        count: (image[COUNT] % 4294967296) as u32,
        held: (image[HELD] % 4294967296) as u32,
        group: (image[GROUP] % 256) as u8,
        unsteady: image[UNSTEADY] % 2 == 1,
    }
}

fn model_at(image: &[u64], registers: [u16; 16], pointers: Pointers) -> Model
    requires { length image.now ≡ image_length }
    ensures { result ≡ model_from registers pointers (numbers_of image.now) }
{
    Model {
        running: image[RUNNING] % 2 == 1,
        counters: Counters {
            l1id: (image[L1ID] % 256) as u8,
            base: image[BASE],
        },
        warnings: Warnings {
            wlv1: image[WLV1] % 2 == 1,
            wfst: image[WFST] % 2 == 1,
            wslw: image[WSLW] % 2 == 1,
        },
        registers: registers,
        pointers: pointers,
    }
}

fn earlier_at(image: &[u64]) -> Earlier
    requires { length image.now ≡ image_length }
    ensures { result ≡ earlier_from (numbers_of image.now) }
{
    Earlier {
        time: image[EARLIER_TIME],
        kind: (image[EARLIER_KIND] % 256) as u8,
    }
}

// The state that an image reads as, each word by its low part; whether that loses anything is for `fits` to say.
pub fn read(image: &[u64]) -> Decoder
    requires { length image.now ≡ image_length }
    ensures { result ≡ state_of image.now }
{
    let next = image[NEXT];
    let phase = phase_of(image[PHASE] % 5);
    let registers = image_words::u16_at(image, REGISTERS);
    let pointers = Pointers {
        writes: image_words::u8_at(image, WRITES),
        reads: image_words::u8_at(image, READS),
    };
    Decoder {
        plan: plan_at(image),
        next: next,
        recogniser: recogniser_at(image, phase),
        model: model_at(image, registers, pointers),
        earlier: earlier_at(image),
    }
}

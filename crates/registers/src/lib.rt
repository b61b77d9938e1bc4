// What the controller holds: the registers, the FIFOs' pointers, counters, warnings and RunMode;
// how they are read, what a write stores, and what a sound state has of them.
#![tactic(auto)]

ghost use Rattle.std.specs.Prelude.{◌≡◌, cond, ◌<◌, ◌≤◌, eqb};
ghost use Rattle.registers.specs.Registers.{register_of, cnt_of, warning_bits, csr_with, read_of};
ghost use Rattle.registers.specs.Parts.{cleared};
ghost use Rattle.registers.specs.Sound.{pointers_fit, missing_zero};

use plans::Plan;

// L1ID, the trigger number, and the cycle from which the bunch number counts.
#[derive(Clone, Copy)]
pub struct Counters {
    pub l1id: u8,
    pub base: u64,
}

// The warnings, CSR bits 8, 9 and 10.
#[derive(Clone, Copy)]
pub struct Warnings {
    pub wlv1: bool,
    pub wfst: bool,
    pub wslw: bool,
}

// The FIFOs' write and read pointers.
#[derive(Clone, Copy)]
pub struct Pointers {
    pub writes: [u8; 16],
    pub reads: [u8; 16],
}

// The controller as the commands left it.
#[derive(Clone, Copy)]
pub struct Model {
    // RunMode.
    pub running: bool,
    pub counters: Counters,
    pub warnings: Warnings,
    pub registers: [u16; 16],
    pub pointers: Pointers,
}

pub fn flag(on: bool, bit: u8) -> u8
    ensures { (result ≡ cond on bit 0) × (result ≤ bit) }
{
    if on { bit } else { 0 }
}

// Bits 8, 9 and 10 of a number replaced.
fn csr_with(value: u16, warnings: u16) -> u16
    requires { warnings < 8 }
    ensures { result ≡ csr_with value warnings }
{
    value % 256 + warnings * 256 + value / 2048 * 2048
}

// What a write of a value stores: CSR's warning bits are not writable.
pub fn stored(plan: Plan, address: u8, value: u16) -> u16
    ensures { result ≡ cond (eqb address plan.csr) (csr_with value 0) value }
{
    if address == plan.csr {
        return csr_with(value, 0);
    }
    value
}

// Whether the 16 pointers are below 128.
pub fn pointers_fit(pointers: [u8; 16]) -> bool
    ensures { result ≡ pointers_fit pointers }
{
    pointers.iter().all(|pointer| *pointer < 128)
}

impl Warnings {
    // The warnings as a number, WLV1 its lowest bit.
    fn bits(self) -> u16
        ensures { (result ≡ warning_bits self) × (result < 8) }
    {
        let lv1 = flag(self.wlv1, 1);
        let fst = flag(self.wfst, 2);
        let slw = flag(self.wslw, 4);
        (lv1 + fst + slw) as u16
    }
}

impl Model {
    // Registers, pointers, L1ID and warnings 0, with a base cycle.
    pub fn cleared(running: bool, base: u64) -> Model
        ensures { result ≡ cleared running base }
    {
        Model {
            running,
            counters: Counters { l1id: 0, base },
            warnings: Warnings {
                wlv1: false,
                wfst: false,
                wslw: false,
            },
            registers: [0u16; 16],
            pointers: Pointers {
                writes: [0u8; 16],
                reads: [0u8; 16],
            },
        }
    }

    // The register at an address, 0 where there is none.
    pub fn register(self, address: u8) -> u16
        ensures { result ≡ register_of self address }
    {
        if 16 <= address {
            return 0;
        }
        let registers = self.registers;
        registers[address as usize]
    }

    // CNT as it stands.
    pub fn cnt(self, plan: Plan) -> u16
        ensures { result ≡ cnt_of plan self }
    {
        self.register(plan.cnt)
    }

    // Whether each register whose address is missing from the plan holds 0.
    pub fn missing_zero(self, plan: Plan) -> bool
        ensures { result ≡ missing_zero plan self }
    {
        (0..16).all(|address| plan.exists_at(address) || self.register(address) == 0)
    }

    // A register as it reads: CSR with the warnings in it.
    pub fn read(self, plan: Plan, address: u8) -> u16
        ensures { result ≡ read_of plan self address }
    {
        let value = self.register(address);
        if address == plan.csr {
            let warnings = self.warnings;
            return csr_with(value, warnings.bits());
        }
        value
    }
}

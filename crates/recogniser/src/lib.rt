// Where the recogniser stands on the command line, what one clock cycle asks for, and what the phases share.
// It owns only what the chip triplicates; registers, counters and RunMode belong to the model.
#![tactic(auto)]

ghost use Rattle.std.specs.Prelude.{◌≡◌, ◌<◌};
ghost use Rattle.recogniser.specs.Parts.{start_of, move_to, gathered_of};
ghost use Rattle.recogniser.specs.declared.Phase.TheVariants.{Hunt};
ghost use Rattle.recogniser.specs.Fields.{ends_of};

// Where the recogniser stands.
#[derive(Clone, Copy)]
pub enum Phase {
    Hunt,
    Body,
    Field3,
    Field4,
    Field5,
}

// What one cycle does to the frame: nothing, or a bit at its place. The bit is as wide as the place, so that an event stays in registers.
// With Options here and for `records::Cycle`, and shorter forms along the path, front-end frames took 1.17 of the time, dense commands 1.07.
#[derive(Clone, Copy)]
pub enum FrameBit {
    None,
    At { place: u32, bit: u32 },
}

// What one cycle of a Slow command asks of the controller: leaving RunMode, or a record with its effect.
#[derive(Clone, Copy)]
pub enum SlowRequest {
    LeaveRunMode,
    Command {
        command: u8,
        address: u8,
        value: u32,
    },
    Bad {
        command: u8,
    },
    Frame {
        command: u8,
        unsteady: bool,
    },
}

// What one cycle asks of the controller: nothing, a record with its effect, or what a Slow command asks.
#[derive(Clone, Copy)]
pub enum Request {
    Nothing,
    Lv1 { position: u8 },
    Fast { body: u8 },
    BadFast { body: u8 },
    Slow { slow: SlowRequest },
}

// What one cycle asks for.
#[derive(Clone, Copy)]
pub struct Event {
    pub frame: FrameBit,
    pub request: Request,
}

impl Event {
    // Nothing at all.
    pub const NOTHING: Event = Event {
        frame: FrameBit::None,
        request: Request::Nothing,
    };
}

#[derive(Clone, Copy)]
pub struct Recogniser {
    pub phase: Phase,
    // The window; in a body, Field 3 or Field 4, the bits received of it.
    pub shift: u8,
    // Field 3 and Field 4, once they are whole.
    pub command: u8,
    pub address: u8,
    // The bits received of the present body or field.
    pub count: u32,
    // The bits kept of Field 5 so far.
    pub held: u32,
    // Front-end frames: the bits received of the present group, and whether a finished one of this frame was unsteady.
    pub group: u8,
    pub unsteady: bool,
}

// One cycle's answer: the recogniser after it, and what it asks for.
#[derive(Clone, Copy)]
pub struct Transition {
    pub next: Recogniser,
    pub event: Event,
}

impl Transition {
    // A request, and hunting on with this window.
    pub fn hunting(window: u8, request: Request) -> Self
        ensures { result ≡ move_to (start_of Hunt window 0 0) request }
    {
        Transition {
            next: Recogniser::start(Phase::Hunt, window, 0, 0),
            event: Event {
                frame: FrameBit::None,
                request: request,
            },
        }
    }
}

impl Recogniser {
    // At the start of a phase.
    pub fn start(phase: Phase, shift: u8, command: u8, address: u8) -> Self
        ensures { result ≡ start_of phase shift command address }
    {
        Recogniser {
            phase: phase,
            shift: shift,
            count: 0,
            command: command,
            address: address,
            held: 0,
            group: 0,
            unsteady: false,
        }
    }

    // One bit more of a body or a field of four.
    pub fn gather(mut self, nibble: u8) -> Transition
        requires { self.count < 3 }
        ensures { result ≡ gathered_of self nibble }
    {
        self.shift = nibble;
        self.count = self.count + 1;
        Transition {
            next: self,
            event: Event::NOTHING,
        }
    }

    // Whether the present bit is the last of Field 5; in 64 bits, so that the sum fits.
    pub fn ends(self, cnt: u16) -> bool
        ensures { result ≡ ends_of self cnt }
    {
        slow_fields::length(self.command, cnt) as u64 <= self.count as u64 + 1
    }
}

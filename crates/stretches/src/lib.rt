// Several clock cycles of the command line at once, as the taking loop walks them: a loop each for hunting and for a body; in any other phase one cycle.
#![tactic(auto)]

ghost use Rattle.std.specs.Prelude.{◌≡◌, ◌<◌, length};
ghost use Rattle.bits.specs.Bits.{bits_of};
ghost use Rattle.bits.specs.Place.{place_under};
ghost use Rattle.recogniser.specs.Parts.{standing};
ghost use Rattle.windows.specs.Windows.{meaning_of};
ghost use Rattle.stretches.specs.Stretch.{is_quiet, stretched, hunt_on, body_on, stretch_of};
ghost use Rattle.stretches.specs.Walk.{Reaches, walk_of};

use bits::Cursor;
use recogniser::{Event, Phase, Recogniser, Request, Transition};
use windows::Meaning;

// How many cycles, the recogniser after them, and what the last of them asks for.
#[derive(Clone, Copy)]
pub struct Stretch {
    pub taken: usize,
    pub next: Recogniser,
    pub event: Event,
}

impl Stretch {
    // So many cycles, of which the last made this transition.
    fn of(taken: usize, last: Transition) -> Self
        ensures { result ≡ stretched taken last }
    {
        let next = last.next;
        let event = last.event;
        Stretch {
            taken: taken,
            next: next,
            event: event,
        }
    }
}

// A stretch of the input, and the place behind it.
#[derive(Clone, Copy)]
pub struct Walk {
    pub stretch: Stretch,
    pub behind: Cursor,
}

// Whether the window means nothing.
fn is_quiet(window: u8) -> bool
    ensures { result ≡ is_quiet (meaning_of window) }
{
    let m = windows::classify(window);
    match m {
        Meaning::Quiet => true,
        Meaning::Trigger { position } => false,
        Meaning::Header => false,
    }
}

// Hunting on with a window over so many bits, up to the first window that means something or to the last bit.
fn hunt_on(shift: u8, input: &[u8], from: Cursor, count: usize) -> Walk
    requires { Reaches from count (length input.now) }
    ensures { result ≡ walk_of from (hunt_on shift (bits_of input.now (place_under from) count)) }
{
    let mut window = shift;
    let mut at = from;
    // Counted down: where these two were a `for` and `windows` had or-patterns, among other forms of the path, zeros took 1.9 of the time.
    let mut left = count;
    while 0 < left {
        window = windows::window_with(window, at.read(input));
        at = at.next();
        left = left - 1;
        if is_quiet(window) {
            continue;
        }
        return Walk {
            stretch: Stretch::of(count - left, hunting::hunted(window)),
            behind: at,
        };
    }
    Walk {
        stretch: Stretch::of(count - left, Transition::hunting(window, Request::Nothing)),
        behind: at,
    }
}

// The same phase, with these bits of it received.
fn standing(mut r: Recogniser, shift: u8, count: u32) -> Recogniser
    ensures { result ≡ standing r shift count }
{
    r.shift = shift;
    r.count = count;
    r
}

// A body over so many bits, up to its fourth or to the last.
fn body_on(r: Recogniser, input: &[u8], from: Cursor, count: usize) -> Walk
    requires { Reaches from count (length input.now) }
    ensures { result ≡ walk_of from (body_on r (bits_of input.now (place_under from) count)) }
{
    let mut nibble = r.shift;
    let mut received = r.count;
    let mut at = from;
    // Counted down, as in `hunt_on`.
    let mut left = count;
    while 0 < left {
        let bit = at.read(input);
        at = at.next();
        left = left - 1;
        if 3 <= received {
            return Walk {
                stretch: Stretch::of(
                    count - left,
                    hunting::body(standing(r, nibble, received), bit),
                ),
                behind: at,
            };
        }
        nibble = windows::nibble_with(nibble, bit);
        received = received + 1;
    }
    Walk {
        stretch: Stretch {
            taken: count - left,
            next: standing(r, nibble, received),
            event: Event::NOTHING,
        },
        behind: at,
    }
}

// One cycle or more of so many bits of the input, by the present contents of the CNT register; all but the last ask for nothing.
pub fn advance(r: Recogniser, input: &[u8], from: Cursor, count: usize, cnt: u16) -> Walk
    requires { (0 < count) × Reaches from count (length input.now) }
    ensures { result ≡ walk_of from (stretch_of r cnt (bits_of input.now (place_under from) count)) }
{
    let phase = r.phase;
    match phase {
        Phase::Hunt => hunt_on(r.shift, input, from, count),
        Phase::Body => body_on(r, input, from, count),
        _ => Walk {
            stretch: Stretch::of(1, steps::step(r, from.read(input), cnt)),
            behind: from.next(),
        },
    }
}

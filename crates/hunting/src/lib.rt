// One clock cycle while the recogniser hunts, and in a body: what the window or the body means.
#![tactic(auto)]

ghost use Rattle.std.specs.Prelude.{◌≡◌, ◌<◌};
ghost use Rattle.windows.specs.Windows.{meaning_of};
ghost use Rattle.recogniser.specs.Hunting.{hunt_by, hunt_of, body_of};

use recogniser::{Event, FrameBit, Phase, Recogniser, Request, SlowRequest, Transition};
use windows::Meaning;

// What a window means, while hunting.
pub fn hunted(window: u8) -> Transition
    ensures { result ≡ hunt_by window (meaning_of window) }
{
    let m = windows::classify(window);
    match m {
        Meaning::Quiet => Transition::hunting(window, Request::Nothing),
        Meaning::Trigger { position } => Transition::hunting(0, Request::Lv1 { position }),
        Meaning::Header => Transition {
            next: Recogniser::start(Phase::Body, 0, 0, 0),
            event: Event::NOTHING,
        },
    }
}

pub fn hunt(r: Recogniser, bit: u8) -> Transition
    requires { bit < 2 }
    ensures { result ≡ hunt_of r bit }
{
    hunted(windows::window_with(r.shift, bit))
}

pub fn body(r: Recogniser, bit: u8) -> Transition
    requires { bit < 2 }
    ensures { result ≡ body_of r bit }
{
    let body = windows::nibble_with(r.shift, bit);
    if r.count < 3 {
        return r.gather(body);
    }
    if windows::is_fast(body) {
        return Transition::hunting(0, Request::Fast { body: body });
    }
    if body == 0b1011 {
        return Transition {
            next: Recogniser::start(Phase::Field3, 0, 0, 0),
            event: Event {
                frame: FrameBit::None,
                request: Request::Slow {
                    slow: SlowRequest::LeaveRunMode,
                },
            },
        };
    }
    Transition::hunting(0, Request::BadFast { body: body })
}

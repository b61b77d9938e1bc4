// Field 5 of a frame, cycle by cycle: its bits, and the groups of a front-end frame.
#![tactic(auto)]

ghost use Rattle.std.specs.Prelude.{◌≡◌, ◌<◌};
ghost use Rattle.recogniser.specs.Groups.{frame_cycle_of, frame_field_of};

use recogniser::{Event, FrameBit, Phase, Recogniser, Request, SlowRequest, Transition};

// One cycle of a frame's Field 5, by the frame bit that it stores and what it leaves of the groups.
fn frame_cycle(r: Recogniser, frame: FrameBit, group: u8, unsteady: bool, cnt: u16) -> Transition
    ensures { result ≡ frame_cycle_of r frame group unsteady cnt }
{
    if r.ends(cnt) {
        return Transition {
            next: Recogniser::start(Phase::Hunt, 0, 0, 0),
            event: Event {
                frame: frame,
                request: Request::Slow {
                    slow: SlowRequest::Frame {
                        command: r.command,
                        unsteady: unsteady,
                    },
                },
            },
        };
    }
    let mut next = r;
    next.unsteady = unsteady;
    next.group = group;
    next.count = r.count + 1;
    Transition {
        next: next,
        event: Event {
            frame: frame,
            request: Request::Nothing,
        },
    }
}

// Field 5 of a frame: a WrReceiver's bit, the eighth cycle of a group, or another.
pub fn frame_field(r: Recogniser, bit: u8, cnt: u16) -> Transition
    requires { bit < 2 }
    ensures { result ≡ frame_field_of r bit cnt }
{
    if r.command == 6 {
        let frame = FrameBit::At {
            place: r.count,
            bit: bit as u32,
        };
        return frame_cycle(r, frame, 0, false, cnt);
    }
    let group = groups::held_with(r.group, bit);
    if r.count % 8 == 7 {
        let frame = FrameBit::At {
            place: r.count / 8,
            bit: groups::vote(group) as u32,
        };
        return frame_cycle(r, frame, 0, r.unsteady | groups::is_unsteady(group), cnt);
    }
    frame_cycle(r, FrameBit::None, group, r.unsteady, cnt)
}

// One clock cycle of the command line, by the phase; and the fields of a Slow command, but for a frame's Field 5.
#![tactic(auto)]

ghost use Rattle.std.specs.Prelude.{◌≡◌, ◌<◌};
ghost use Rattle.recogniser.specs.Fields.{slow_request_of, field3_of, field4_of, kept_field_of};
ghost use Rattle.recogniser.specs.Step.{field5_of, step_of};

use recogniser::{Event, Phase, Recogniser, Request, SlowRequest, Transition};

// The end of a Slow command that carries no frame.
fn slow(command: u8, address: u8, value: u32) -> Request
    ensures { result ≡ slow_request_of command address value }
{
    if slow_fields::is_slow(command) {
        return Request::Slow {
            slow: SlowRequest::Command {
                command: command,
                address: address,
                value: value,
            },
        };
    }
    Request::Slow {
        slow: SlowRequest::Bad { command: command },
    }
}

fn field3(r: Recogniser, bit: u8) -> Transition
    requires { bit < 2 }
    ensures { result ≡ field3_of r bit }
{
    let command = windows::nibble_with(r.shift, bit);
    if r.count < 3 {
        return r.gather(command);
    }
    Transition {
        next: Recogniser::start(Phase::Field4, 0, command, 0),
        event: Event::NOTHING,
    }
}

fn field4(r: Recogniser, bit: u8, cnt: u16) -> Transition
    requires { bit < 2 }
    ensures { result ≡ field4_of r bit cnt }
{
    let address = windows::nibble_with(r.shift, bit);
    if r.count < 3 {
        return r.gather(address);
    }
    let command = r.command;
    if 0 < slow_fields::length(command, cnt) {
        return Transition {
            next: Recogniser::start(Phase::Field5, 0, command, address),
            event: Event::NOTHING,
        };
    }
    if slow_fields::is_frame(command) {
        return Transition::hunting(
            0,
            Request::Slow {
                slow: SlowRequest::Frame {
                    command: command,
                    unsteady: false,
                },
            },
        );
    }
    Transition::hunting(0, slow(command, address, 0))
}

// Field 5 of a command that carries no frame.
fn kept_field(r: Recogniser, bit: u8, cnt: u16) -> Transition
    requires { bit < 2 }
    ensures { result ≡ kept_field_of r bit cnt }
{
    let value = slow_fields::kept(r.command, r.held, bit);
    if r.ends(cnt) {
        return Transition::hunting(0, slow(r.command, r.address, value));
    }
    let mut next = r;
    next.held = value;
    next.count = r.count + 1;
    Transition {
        next: next,
        event: Event::NOTHING,
    }
}

fn field5(r: Recogniser, bit: u8, cnt: u16) -> Transition
    requires { bit < 2 }
    ensures { result ≡ field5_of r bit cnt }
{
    if slow_fields::is_frame(r.command) {
        return frame_fields::frame_field(r, bit, cnt);
    }
    kept_field(r, bit, cnt)
}

// One cycle, by the present contents of the CNT register.
pub fn step(r: Recogniser, bit: u8, cnt: u16) -> Transition
    requires { bit < 2 }
    ensures { result ≡ step_of r bit cnt }
{
    let phase = r.phase;
    match phase {
        Phase::Hunt => hunting::hunt(r, bit),
        Phase::Body => hunting::body(r, bit),
        Phase::Field3 => field3(r, bit),
        Phase::Field4 => field4(r, bit, cnt),
        Phase::Field5 => field5(r, bit, cnt),
    }
}

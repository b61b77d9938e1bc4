// What each request does to the registers, FIFOs, counters, warnings and RunMode, and its record.
#![tactic(auto)]

ghost use Rattle.std.specs.Prelude.{◌≡◌, true, ◌<◌, length};
ghost use Rattle.limits.specs.Limits.{store_length};
ghost use Rattle.triggers.specs.Triggers.{acted};
ghost use Rattle.controller.specs.Commands.{leave_of, write_register_of, read_register_of, write_fifo_of, read_fifo_of, enable_of, reset_of, reset_front_ends_of};
ghost use Rattle.controller.specs.Commands.{bad_slow_of, frame_value_of, frame_of};
ghost use Rattle.controller.specs.Commands.{command_of, slow_of, act_of};
ghost use Rattle.controller.specs.Requests.{request_fits, slow_fits};

use plans::Plan;
use recogniser::{Request, SlowRequest};
use records::{Cycle, KIND_BAD_SLOW, KIND_SLOW};
use registers::Model;
use triggers::{Acted, FLAG_ACTED};

// The values of Field 3 that are told apart here.
const WR_REGISTER: u8 = 0;

const RD_REGISTER: u8 = 1;

const WR_FIFO: u8 = 2;

const RD_FIFO: u8 = 3;

const WR_RECEIVER: u8 = 6;

const EN_DATA_TAKE: u8 = 8;

const GLOBAL_RESET_MCC: u8 = 9;

const GLOBAL_RESET_FE: u8 = 10;

// The flags of a record that a Slow alone has; `triggers` has the others, and `timing` adds one more, 0x20.
const FLAG_MISSING: u8 = 0x08;

const FLAG_UNSTEADY: u8 = 0x10;

// The value of a frame's record.
fn frame_value(command: u8, cnt: u16) -> u64
    ensures { result ≡ frame_value_of command cnt }
{
    let n = cnt as u64;
    if command == WR_RECEIVER {
        return n % 8192 * 8;
    }
    n % 8 * 8 * 65536 + n / 8
}

// A cycle that writes no record and changes nothing here.
fn silent(model: Model) -> Acted
    ensures { result ≡ acted model Cycle.Silent }
{
    Acted {
        model: model,
        cycle: Cycle::Silent,
    }
}

// RunMode ends at the ninth header bit of any Slow, whatever the Slow turns out to be.
fn leave(model: Model) -> Acted
    ensures { result ≡ leave_of model }
{
    let mut m = model;
    m.running = false;
    Acted {
        model: m,
        cycle: Cycle::Silent,
    }
}

fn write_register(model: Model, plan: Plan, address: u8, value: u32, time: u64) -> Acted
    ensures { result ≡ write_register_of plan model address value time }
{
    let bits = (value % 65536) as u16;
    let arrived = address as u64 * 65536 + bits as u64;
    if !plan.exists_at(address) {
        return triggers::answer(model, time, KIND_SLOW + WR_REGISTER, FLAG_MISSING, arrived);
    }
    let mut m = model;
    m.registers[address as usize] = registers::stored(plan, address, bits);
    triggers::answer(m, time, KIND_SLOW + WR_REGISTER, FLAG_ACTED, arrived)
}

fn read_register(model: Model, plan: Plan, address: u8, time: u64) -> Acted
    ensures { result ≡ read_register_of plan model address time }
{
    let asked = address as u64 * 65536;
    if !plan.exists_at(address) {
        return triggers::answer(model, time, KIND_SLOW + RD_REGISTER, FLAG_MISSING, asked);
    }
    let value = model.read(plan, address);
    triggers::answer(
        model,
        time,
        KIND_SLOW + RD_REGISTER,
        FLAG_ACTED,
        asked + value as u64,
    )
}

fn write_fifo(model: Model, plan: Plan, value: u32, time: u64, store: &mut [u32]) -> Acted
    requires { length store.old ≡ store_length }
    ensures { (record { acted = result; store = store.new }) ≡ write_fifo_of plan model value time store.old }
{
    let word = value % fifos::WORD;
    let feen = model.register(plan.feen);
    let mut pointers = model.pointers;
    let writes = pointers.writes;
    let moved = fifos::write_all(writes, feen, word, store);
    pointers.writes = moved;
    let mut m = model;
    m.pointers = pointers;
    triggers::answer(m, time, KIND_SLOW + WR_FIFO, FLAG_ACTED, word as u64)
}

fn read_fifo(model: Model, address: u8, time: u64, store: &[u32]) -> Acted
    requires { length store.now ≡ store_length }
    ensures { result ≡ read_fifo_of model address time store.now }
{
    let n = (address % 16) as usize;
    let mut pointers = model.pointers;
    let pointer = pointers.reads[n];
    let word = fifos::read_word(store, n, pointer);
    pointers.reads[n] = fifos::moved_on(pointer);
    let mut m = model;
    m.pointers = pointers;
    let value = n as u64 * fifos::WORD as u64 + word as u64;
    triggers::answer(m, time, KIND_SLOW + RD_FIFO, FLAG_ACTED, value)
}

// RunMode starts at the end of EnDataTake.
fn enable(model: Model, time: u64) -> Acted
    ensures { result ≡ enable_of model time }
{
    let mut m = model;
    m.running = true;
    triggers::answer(m, time, KIND_SLOW + EN_DATA_TAKE, FLAG_ACTED, 0)
}

// All but RunMode starts anew, and the bunch number counts from here.
fn reset(model: Model, time: u64) -> Acted
    ensures { result ≡ reset_of model time }
{
    let m = Model::cleared(model.running, time);
    triggers::answer(m, time, KIND_SLOW + GLOBAL_RESET_MCC, FLAG_ACTED, 0)
}

fn reset_front_ends(model: Model, value: u32, time: u64) -> Acted
    ensures { result ≡ reset_front_ends_of model value time }
{
    let told = (value % 16 * 2 + 1) as u64;
    triggers::answer(model, time, KIND_SLOW + GLOBAL_RESET_FE, FLAG_ACTED, told)
}

fn bad_slow(model: Model, command: u8, time: u64) -> Acted
    ensures { result ≡ bad_slow_of model command time }
{
    let mut m = model;
    let mut warnings = model.warnings;
    warnings.wslw = true;
    m.warnings = warnings;
    triggers::answer(m, time, KIND_BAD_SLOW, 0, command as u64)
}

fn frame(model: Model, plan: Plan, command: u8, unsteady: bool, time: u64) -> Acted
    requires { command < 16 }
    ensures { result ≡ frame_of plan model command unsteady time }
{
    let value = frame_value(command, model.cnt(plan));
    let flags = FLAG_ACTED + registers::flag(unsteady, FLAG_UNSTEADY);
    triggers::answer(model, time, KIND_SLOW + command, flags, value)
}

// A Slow command that carries no frame, by Field 3.
fn slow_command(
    model: Model,
    plan: Plan,
    command: u8,
    address: u8,
    value: u32,
    time: u64,
    store: &mut [u32],
) -> Acted
    requires { length store.old ≡ store_length }
    ensures { (record { acted = result; store = store.new }) ≡ command_of plan model command address value time store.old }
{
    if command == WR_REGISTER {
        return write_register(model, plan, address, value, time);
    }
    if command == RD_REGISTER {
        return read_register(model, plan, address, time);
    }
    if command == WR_FIFO {
        return write_fifo(model, plan, value, time, store);
    }
    if command == RD_FIFO {
        return read_fifo(model, address, time, store);
    }
    if command == EN_DATA_TAKE {
        return enable(model, time);
    }
    if command == GLOBAL_RESET_MCC {
        return reset(model, time);
    }
    reset_front_ends(model, value, time)
}

// What a cycle of a Slow command does.
fn slow(model: Model, plan: Plan, slow: SlowRequest, time: u64, store: &mut [u32]) -> Acted
    requires { (length store.old ≡ store_length) × (slow_fits slow ≡ true) }
    ensures { (record { acted = result; store = store.new }) ≡ slow_of plan model slow time store.old }
{
    match slow {
        SlowRequest::LeaveRunMode => leave(model),
        SlowRequest::Command {
            command,
            address,
            value,
        } => slow_command(model, plan, command, address, value, time, store),
        SlowRequest::Bad { command } => bad_slow(model, command, time),
        SlowRequest::Frame { command, unsteady } => frame(model, plan, command, unsteady, time),
    }
}

// What a request does in its cycle. A body and Field 3 have four bits, which keeps a record's kind within its byte.
pub fn act(model: Model, plan: Plan, request: Request, time: u64, store: &mut [u32]) -> Acted
    requires { (length store.old ≡ store_length) × (request_fits request ≡ true) }
    ensures { (record { acted = result; store = store.new }) ≡ act_of plan model request time store.old }
{
    match request {
        Request::Nothing => silent(model),
        Request::Lv1 { position } => triggers::lv1(model, plan, position, time),
        Request::Fast { body } => triggers::fast(model, body, time),
        Request::BadFast { body } => triggers::bad_fast(model, body, time),
        Request::Slow { slow: s } => slow(model, plan, s, time, store),
    }
}

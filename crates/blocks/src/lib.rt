// A block of input listed into a block of output: the taking calls of a program's run, and its steps in a row.
#![tactic(auto)]

ghost use Rattle.std.specs.Prelude.{◌≡◌, true, false, ◌<◌, ◌≤◌, length};
ghost use Rattle.program.specs.RunState.{snapshot, work_left, can_step, WellFormed, StepReady, AfterTake, AfterSteps};

use program::RunState;

// One taking call of the last line's bits, and the lines of its records. Only a refused call takes no bits.
fn take_bits(
    from: RunState,
    store: &mut [u32],
    tray: &mut [u8],
    out: &mut [u8],
    frames: bool,
) -> RunState
    requires { StepReady (snapshot from store.old tray.old out.old) × (0 < from.count) }
    ensures { AfterTake frames (snapshot from store.old tray.old out.old)
        (snapshot result store.new tray.new out.new) }
{
    let d = from.decoder;
    let bytes = from.bytes;
    let mut list = [0u64; program::LIST_WORDS];
    let taken = taking::take(d, &bytes, from.first, from.count, store, tray, &mut list, 0);
    let report = taken.report;
    let n = report.records * 2;
    let decoder = taken.decoder;
    let mut next = from;
    next.decoder = decoder;
    next.first = from.first + report.bits;
    next.count = from.count - report.bits;
    next.filled = listing::put_records(out, from.filled, &list[..n], tray, frames);
    next.over = report.bits == 0;
    next.number = program::clock_number(report.bits);
    next
}

// One step of the run: a taking call, or where no bits are left a scan for the next line.
fn step(
    from: RunState,
    input: &[u8],
    store: &mut [u32],
    tray: &mut [u8],
    out: &mut [u8],
    frames: bool,
) -> RunState
    requires { WellFormed (snapshot from store.old tray.old out.old)
        × (can_step (length input.now) (length out.old) from ≡ true) × (from.next ≤ length input.now) }
    ensures after_steps { AfterSteps frames input.now (snapshot from store.old tray.old out.old)
        (snapshot result store.new tray.new out.new) }
    ensures result_bound { work_left (length input.now) result < work_left (length input.now) from }
{
    if from.count == 0 {
        return from.scan_line(input, out);
    }
    take_bits(from, store, tray, out, frames)
}

// Lists the rest of the block of input into the block of output, as far as that has room.
pub fn list_block(
    from: RunState,
    input: &[u8],
    store: &mut [u32],
    tray: &mut [u8],
    out: &mut [u8],
    frames: bool,
) -> RunState
    requires { WellFormed (snapshot from store.old tray.old out.old) × (from.next ≤ length input.now) }
    ensures after_steps { AfterSteps frames input.now (snapshot from store.old tray.old out.old)
        (snapshot result store.new tray.new out.new) }
    ensures result_value { can_step (length input.now) (length out.old) result ≡ false }
{
    let mut state = from;
    // A step takes as much as a line has, so that no `for` counts them.
    while state.can_step(input.len(), out.len()) {
        state = step(state, input, store, tray, out, frames);
    }
    state
}

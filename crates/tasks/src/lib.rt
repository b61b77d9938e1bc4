// What the programs do with their input.
#![tactic(auto)]

ghost use Rattle.std.specs.Prelude.{◌≡◌};
ghost use Rattle.tasks.specs.Tasks.{input_place};

// Lists it, with frames, without, or with the state at the end; tells whether its stream is accepted; composes a stream from its orders; reads a reply of
// so many data bits.
#[derive(Clone, Copy)]
pub enum Task {
    Station,
    Reading,
    Model,
    Accept,
    Compose,
    Reply { bits: u32 },
}

// The place of the word that names the input, if there is one.
pub fn input_place(task: Task) -> usize
    ensures { result ≡ input_place task }
{
    match task {
        Task::Reply { .. } => 2,
        _ => 1,
    }
}

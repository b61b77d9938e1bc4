// The sentence that standard error gets for a pattern at fault.
#![tactic(auto)]

ghost use Rattle.std.specs.Prelude.{◌≡◌, ◌+◌, ◌≤◌, length};
ghost use Rattle.output.specs.Block.{block, put_all};
ghost use Rattle.fault_messages.specs.FaultSentences.{fault_reason, fault_sentence};

// Why a pattern is at fault.
#[tactic(auto, unfolding(crate::specs::FaultSentences::fault_reason))]
fn put_fault_reason(out: &mut [u8], at: usize, number: u8) -> usize
    requires { at + length (fault_reason number) ≤ length out.old }
    ensures { block out.new result ≡ put_all out.old at (fault_reason number) }
{
    match number {
        13 => output::put_bytes(
            out,
            at,
            b"the bits from here on begin none of LV1, BCR, ECR, CAL and SYNC\n",
        ),
        14 => output::put_bytes(
            out,
            at,
            b"the input ends inside the command that begins here\n",
        ),
        _ => output::put_bytes(
            out,
            at,
            b"too few zeros lie ahead of the command that begins here\n",
        ),
    }
}

// The whole sentence for a pattern at fault: its first bit's place, and why it is refused.
pub fn put_fault(out: &mut [u8], at: usize, number: u8, place: u64) -> usize
    requires { at + length (fault_sentence number place) ≤ length out.old }
    ensures { block out.new result ≡ put_all out.old at (fault_sentence number place) }
{
    let next = decimal_digits::put_labelled(out, at, b"bit ", place, b": ");
    put_fault_reason(out, next, number)
}

// The eight cycles of a front-end bit: what is held of them, the vote among them, and whether they differ.
// A group is a byte: the bits received of it, the latest lowest, so that its first stands highest once it is whole.
#![tactic(auto)]

ghost use Rattle.std.specs.Prelude.{◌≡◌, ◌<◌};
ghost use Rattle.groups.specs.Vote.{vote_of, unsteady};
ghost use Rattle.groups.specs.Received.{held_with, bits_in, left_by_some};

// What is held with one bit more.
pub fn held_with(group: u8, bit: u8) -> u8
    requires { bit < 2 }
    ensures { result ≡ held_with group bit }
{
    (group << 1) | bit
}

// The bit that a whole group becomes: by its ones, or by its first bit where they are four.
pub fn vote(group: u8) -> u8
    ensures { result ≡ vote_of (bits_in group) }
{
    let ones = u8::count_ones(group);
    if ones == 4 {
        return group >> 7;
    }
    (4 < ones) as u8
}

// Whether the bits of a whole group differ.
pub fn is_unsteady(group: u8) -> bool
    ensures { result ≡ unsteady (bits_in group) }
{
    (group != 0) & (group != 0b11111111)
}

// Whether some bits, as many as were received of an unfinished group, leave this.
pub fn is_left_by_some(group: u8, received: u32) -> bool
    requires { received < 8 }
    ensures { result ≡ left_by_some received group }
{
    group < 1 << received
}

// The names of the commands in a text of orders: the kind that has a name, and how many fields it has.
#![tactic(auto)]

ghost use Rattle.std.specs.Prelude.{◌≡◌, ◌≤◌};
ghost use Rattle.command_names.specs.Names.{kind_named, known_kind, field_count};

// Each command's name with its kind.
const COMMANDS: [(&[u8], u64); 15] = [
    (b"lv1", 0x01),
    (b"bcr", 0x11),
    (b"ecr", 0x12),
    (b"cal", 0x14),
    (b"sync", 0x18),
    (b"wr-register", 0x20),
    (b"rd-register", 0x21),
    (b"wr-fifo", 0x22),
    (b"rd-fifo", 0x23),
    (b"wr-front-end", 0x24),
    (b"rd-front-end", 0x25),
    (b"wr-receiver", 0x26),
    (b"en-data-take", 0x28),
    (b"global-reset-mcc", 0x29),
    (b"global-reset-fe", 0x2A),
];

// The kind of the command that has a name.
pub fn kind_named(name: &[u8]) -> Option<u64>
    ensures { result ≡ known_kind (kind_named name.now) }
{
    COMMANDS
        .iter()
        .find(|(known, _)| name == *known)
        .map(|(_, kind)| *kind)
}

// How many fields a command has.
pub fn field_count(kind: u64) -> usize
    ensures { (result ≡ field_count kind) × (result ≤ 3) }
{
    let address = usize::from(order_kinds::uses_address(kind));
    let value = usize::from(0 < order_kinds::value_width(kind));
    let frame = usize::from(order_kinds::is_frame_kind(kind));
    address + (value + frame)
}

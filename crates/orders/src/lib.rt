// Orders, from which a stream is composed: a command by its kind, its fields and the zeros ahead of it; and what one goes by.
#![tactic(auto)]

// An order. What a field holds that its command does not use is not looked at.
#[derive(Clone, Copy)]
pub struct Order {
    // The kind of the command's record.
    pub kind: u64,
    // The zeros ahead of it.
    pub zeros: u64,
    // Field 4 of WrRegister, RdRegister and RdFifo.
    pub address: u64,
    // Field 5 of WrRegister, WrFifo and GlobalResetFE.
    pub value: u64,
    // A frame's bits: their first byte in what is lent, and their count.
    pub frame: u64,
    pub bits: u64,
}

// What an order goes by: the kind of the command before it, 0 for none, as the timing table takes it, and CNT as the orders before it wrote it.
#[derive(Clone, Copy)]
pub struct Context {
    pub last: u8,
    pub cnt: u16,
}

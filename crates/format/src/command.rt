// The command bytes of a plan. They are no enum: each place of a plan fits one of them, or two, and compares with it, and none asks which
// command any byte is.
pub const SIZE: u8 = 0x50; // point count

pub const TERMINALS: u8 = 0x53; // server, room

pub const EDGE: u8 = 0x43; // cable number, first end, second end

pub const LENGTH: u8 = 0x4D; // cable number, two bytes of metres, high byte first

pub const END: u8 = 0x45; // no operand

// A head by value, in small parts. Stored is all that demand 3 speaks of.
//
// A flag stands beside its value, 0 beside none, and a count beside its array: the parts are words in fixed memory (repr(C)), of which any can be handed
// in and are looked at by refusal 20, the statements of demands name each, and FDh and FBh read back what an `Option` would not hold.
#[repr(C)]
#[derive(Clone, Copy)]
pub struct ErrorList {
    pub codes: [u16; 10],
    pub count: u32,
}

// The 39 values as words on the wire, the number and the baud setting in force, the number that is offered by Auto-ID (0: none), the serial number
// that the head was made with, which nothing changes, and whether the interlock is open.
#[repr(C)]
#[derive(Clone, Copy)]
pub struct Stored {
    pub values: [u32; 39],
    pub number: u32,
    pub baud: u32,
    pub offer: u32,
    pub serial: u32,
    pub unlocked: bool,
}

// Remembered errors and input errors, the pending error (0: none), the exclusive-or of the last damaged telegram since the restart (0: none),
// damaged telegrams in a row.
#[repr(C)]
#[derive(Clone, Copy)]
pub struct Faults {
    pub memory: ErrorList,
    pub inputs: ErrorList,
    pub pending: u16,
    pub hit: u8,
    pub damaged: u32,
}

// `kept` is what FEh showed at freezing, 0 while it is off. Incremental measurement is retired: an older head may still have it on, `start` being the m
// at switching it on, and is handed in with both.
#[repr(C)]
#[derive(Clone, Copy)]
pub struct Measurement {
    pub m: i32,
    pub zero: i32,
    pub adopted: u32,
    pub incremental: bool,
    pub start: i32,
    pub frozen: bool,
    pub kept: i64,
}

// Both set points with their validity, the last taken control word, the static bit, and whether each set point is acknowledged, which only
// alpha-numeric display knows.
#[repr(C)]
#[derive(Clone, Copy)]
pub struct Targets {
    pub first: u32,
    pub valid1: bool,
    pub second: u32,
    pub valid2: bool,
    pub word: u16,
    pub reached: bool,
    pub acknowledged1: bool,
    pub acknowledged2: bool,
}

// The bus timeout: running since the last sound telegram, and when that came (0 while it is stopped).
#[repr(C)]
#[derive(Clone, Copy)]
pub struct Monitor {
    pub running: bool,
    pub since: u32,
}

// The bytes gathered, how many, and when the last byte came.
#[repr(C)]
#[derive(Clone, Copy)]
pub struct Ear {
    pub bytes: [u8; 10],
    pub count: usize,
    pub at: u32,
}

#[repr(C)]
#[derive(Clone, Copy)]
pub struct Head {
    pub stored: Stored,
    pub faults: Faults,
    pub measurement: Measurement,
    pub targets: Targets,
    pub monitor: Monitor,
    pub ear: Ear,
    pub keys: u32,
}

// The places of the parameters that a head itself goes by.
#[derive(Clone, Copy)]
pub struct Setting {}

impl Setting {
    pub const NODE: usize = 0;

    pub const BAUD: usize = 1;

    pub const TIMEOUT: usize = 2;

    pub const RESPONSE: usize = 3;

    pub const CALIBRATION_KEY: usize = 5;

    pub const DIVISOR: usize = 11;

    pub const INTERLOCK: usize = 14;

    pub const DIRECTION: usize = 16;

    pub const OFFSET: usize = 18;

    pub const CALIBRATION: usize = 19;

    pub const WINDOW1: usize = 20;

    pub const MODE: usize = 23;

    pub const WINDOW2: usize = 25;

    pub const APPLICATION: usize = 27;

    pub const DIFFERENCE: usize = 28;

    pub const INCREMENTAL: usize = 29;

    pub const ACKNOWLEDGEMENT: usize = 35;
}

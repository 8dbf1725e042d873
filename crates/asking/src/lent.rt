// The memory that is lent to calls: how much the program has of each kind, and what each element holds before a call.
pub const PLACES: usize = 600;

pub const DIGIT: i8 = 0x5A;

pub const MARK_WORDS: usize = 12;

pub const MARKS: u64 = 0xA5A5_A5A5_A5A5_A5A5;

pub const WORDS: usize = 1100;

pub const WORD: u16 = 0xEEEE;

pub const CHARACTERS: usize = 3300;

pub const CHARACTER: u8 = 0x2E;

pub const MULTIPLES: usize = 140;

pub const MULTIPLE: u32 = 0xDEAD_BEEF;

// The powers of an inverse; those of a base are lent as multiples are.
pub const INVERSE: u32 = 0xC0DE_C0DE;

// Where the numbers of NT/N Rest Octets stand in an array: each place behind the one before it.

// The number of bits used, which a reader leaves and no writer looks at.
pub const USED: usize = 0;

// NLN there, NLN, how many calls, and the calls.
pub const NUMBERED: usize = USED + 1;

pub const NLN: usize = NUMBERED + 1;

pub const CALLS: usize = NLN + 1;

pub const FIRST_CALL: usize = CALLS + 1;

pub const CALL_LENGTH: usize = 11;

pub const MOST_CALLS: usize = 4;

// Release 6 there, count there, CELL_GLOBAL_COUNT, how many reduced references, these, how many random entries, these.
pub const RELEASE6: usize = FIRST_CALL + MOST_CALLS * CALL_LENGTH;

pub const COUNTED: usize = RELEASE6 + 1;

pub const CELLCOUNT: usize = COUNTED + 1;

pub const REDUCEDS: usize = CELLCOUNT + 1;

pub const FIRST_REDUCED: usize = REDUCEDS + 1;

pub const REDUCED_LENGTH: usize = 2;

pub const MOST_REDUCEDS: usize = 5;

pub const RANDOMS: usize = FIRST_REDUCED + MOST_REDUCEDS * REDUCED_LENGTH;

pub const FIRST_RANDOM: usize = RANDOMS + 1;

pub const RANDOM_LENGTH: usize = 3;

pub const MOST_RANDOMS: usize = 9;

// Release 7 there, how many emergency marks, these, uplink there, Priority Uplink Access.
pub const RELEASE7: usize = FIRST_RANDOM + MOST_RANDOMS * RANDOM_LENGTH;

pub const MARKS: usize = RELEASE7 + 1;

pub const FIRST_MARK: usize = MARKS + 1;

pub const MOST_MARKS: usize = 4;

pub const UPLINKED: usize = FIRST_MARK + MOST_MARKS;

pub const UPLINK: usize = UPLINKED + 1;

// AMR there, FR AMR there, FR AMR Config, HR AMR there, HR AMR Config.
pub const AMR: usize = UPLINK + 1;

pub const FULLRATED: usize = AMR + 1;

pub const FULLRATE: usize = FULLRATED + 1;

pub const HALFRATED: usize = FULLRATE + 1;

pub const HALFRATE: usize = HALFRATED + 1;

// SMS there, SMS Data Confidentiality Ind, SMS Guaranteed Privacy Ind.
pub const SMS: usize = HALFRATE + 1;

pub const CONFIDENTIAL: usize = SMS + 1;

pub const PRIVATE: usize = CONFIDENTIAL + 1;

// The record's numbers, and all: with the number of bits used before them.
pub const RECORD_LENGTH: usize = PRIVATE + 1 - NUMBERED;

pub const LENGTH: usize = PRIVATE + 1 - USED;

// Where the numbers of NOTIFICATION/FACCH stand in an array: each place behind the one before it.

// The number of bits used, which a reader leaves and no writer looks at.
pub const USED: usize = 0;

// A call or paging, and the call.
pub const PAGING: usize = USED + 1;

pub const CALL: usize = PAGING + 1;

// Length of the mobile identity, its first octet, its other octets as one number, channel first, eMLPP priority there, eMLPP priority.
pub const IDENTITY_LENGTH: usize = CALL + nch::places::CALL_LENGTH;

pub const IDENTITY_FIRST: usize = IDENTITY_LENGTH + 1;

pub const IDENTITY_REST: usize = IDENTITY_FIRST + 1;

pub const CHANNEL_FIRST: usize = IDENTITY_REST + 1;

pub const PRIORITIZED: usize = CHANNEL_FIRST + 1;

pub const PRIORITY: usize = PRIORITIZED + 1;

// Release 6 there, count there, CELL_GLOBAL_COUNT, B22_COUNT, VSTK_RAND there, VSTK_RAND.
pub const RELEASE6: usize = PRIORITY + 1;

pub const COUNTED: usize = RELEASE6 + 1;

pub const CELLCOUNT: usize = COUNTED + 1;

pub const B22: usize = CELLCOUNT + 1;

pub const RANDOM: usize = B22 + 1;

pub const RAND: usize = RANDOM + 1;

// Release 7 there, Priority Uplink Access, emergency, Paging Cause there, Paging Cause.
pub const RELEASE7: usize = RAND + 1;

pub const UPLINK: usize = RELEASE7 + 1;

pub const EMERGENCY: usize = UPLINK + 1;

pub const CAUSED: usize = EMERGENCY + 1;

pub const CAUSE: usize = CAUSED + 1;

// The numbers of a page and of the releases, the record's, and all: with the number of bits used before them.
pub const PAGE_LENGTH: usize = RELEASE6 - IDENTITY_LENGTH;

pub const RELEASE6_LENGTH: usize = RELEASE7 - RELEASE6;

pub const RELEASE7_LENGTH: usize = CAUSE + 1 - RELEASE7;

pub const RECORD_LENGTH: usize = CAUSE + 1 - PAGING;

pub const LENGTH: usize = CAUSE + 1 - USED;

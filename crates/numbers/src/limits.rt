// The largest number of each field of both notifications, in the order of the record's numbers.

use arrays::limits::{FLAG, LONG, OCTET, WORD};

// Of NT/N Rest Octets.
pub const NCH_MOST: [u64; nch::places::RECORD_LENGTH] = [
    // NLN there, NLN, how many calls
    FLAG, OCTET, LONG,
    // a call
    WORD, FLAG, FLAG, OCTET, OCTET, FLAG, WORD, FLAG, FLAG, OCTET, LONG,
    // a call
    WORD, FLAG, FLAG, OCTET, OCTET, FLAG, WORD, FLAG, FLAG, OCTET, LONG,
    // a call
    WORD, FLAG, FLAG, OCTET, OCTET, FLAG, WORD, FLAG, FLAG, OCTET, LONG,
    // a call
    WORD, FLAG, FLAG, OCTET, OCTET, FLAG, WORD, FLAG, FLAG, OCTET, LONG,
    // Release 6 there, count there, CELL_GLOBAL_COUNT, how many reduced references
    FLAG, FLAG, OCTET, LONG,
    // reduced references
    WORD, FLAG, WORD, FLAG, WORD, FLAG, WORD, FLAG, WORD, FLAG,
    // how many random entries
    LONG,
    // random entries
    FLAG, FLAG, LONG, FLAG, FLAG, LONG, FLAG, FLAG, LONG, FLAG, FLAG, LONG, FLAG, FLAG, LONG, FLAG,
    FLAG, LONG, FLAG, FLAG, LONG, FLAG, FLAG, LONG, FLAG, FLAG, LONG,
    // Release 7 there, how many emergency marks
    FLAG, LONG,
    // the marks
    FLAG, FLAG, FLAG, FLAG,
    // uplink, AMR, SMS
    FLAG, FLAG, FLAG, FLAG, OCTET, FLAG, OCTET, FLAG, FLAG, FLAG,
];

// Of NOTIFICATION/FACCH.
pub const FACCH_MOST: [u64; crate::places::RECORD_LENGTH] = [
    // a call or paging
    FLAG,
    // the call
    WORD, FLAG, FLAG, OCTET, OCTET, FLAG, WORD, FLAG, FLAG, OCTET, LONG,
    // length of the mobile identity, its first octet, its other octets, channel first, eMLPP priority there, eMLPP priority
    OCTET, OCTET, LONG, OCTET, FLAG, OCTET,
    // Release 6 there, count there, CELL_GLOBAL_COUNT, B22_COUNT, VSTK_RAND there, VSTK_RAND
    FLAG, FLAG, OCTET, FLAG, FLAG, LONG,
    // Release 7 there, Priority Uplink Access, emergency, Paging Cause there, Paging Cause
    FLAG, FLAG, FLAG, FLAG, FLAG,
];

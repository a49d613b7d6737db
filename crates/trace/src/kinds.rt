// The kinds of field, by number, as include/asternhaken.h has them with ASTERNHAKEN_FIELD_ in front.
pub const NLN_GIVEN: u64 = 1;

pub const NLN: u64 = 2;

pub const CALL_GIVEN: u64 = 3;

pub const FIRST_OCTET: u64 = 4;

pub const PAGING: u64 = 5;

pub const CALL_REFERENCE: u64 = 6;

pub const SERVICE_FLAG: u64 = 7;

pub const ACKNOWLEDGEMENT_FLAG: u64 = 8;

pub const PRIORITY: u64 = 9;

pub const CIPHER_KEY_NUMBER: u64 = 10;

pub const CHANNEL_GIVEN: u64 = 11;

pub const CHANNEL: u64 = 12;

pub const HOPS: u64 = 13;

pub const SHORT_LIST: u64 = 14;

pub const ALLOCATION_OCTETS: u64 = 15;

pub const ALLOCATION: u64 = 16;

pub const FREQUENCY_SHORT_LIST: u64 = 17;

pub const IDENTITY_OCTETS: u64 = 18;

pub const IDENTITY_FIRST: u64 = 19;

pub const IDENTITY_REST: u64 = 20;

pub const CHANNEL_FIRST: u64 = 21;

pub const EMLPP_PRIORITY_GIVEN: u64 = 22;

pub const EMLPP_PRIORITY: u64 = 23;

pub const RELEASE_6_GIVEN: u64 = 24;

pub const COUNT_GIVEN: u64 = 25;

pub const CELL_GLOBAL_COUNT: u64 = 26;

pub const B22_COUNT: u64 = 27;

pub const REDUCED_GIVEN: u64 = 28;

pub const REDUCED_REFERENCE: u64 = 29;

pub const REDUCED_SERVICE_FLAG: u64 = 30;

pub const RANDOM_GIVEN: u64 = 31;

pub const SEGMENT_ID: u64 = 32;

pub const RAND_GIVEN: u64 = 33;

pub const VSTK_RAND: u64 = 34;

pub const RELEASE_7_GIVEN: u64 = 35;

pub const EMERGENCY_MARK_GIVEN: u64 = 36;

pub const EMERGENCY_MARK: u64 = 37;

pub const UPLINK_GIVEN: u64 = 38;

pub const UPLINK_ACCESS: u64 = 39;

pub const AMR_GIVEN: u64 = 40;

pub const FR_AMR_GIVEN: u64 = 41;

pub const FR_AMR_CONFIG: u64 = 42;

pub const HR_AMR_GIVEN: u64 = 43;

pub const HR_AMR_CONFIG: u64 = 44;

pub const SMS_GIVEN: u64 = 45;

pub const SMS_CONFIDENTIALITY: u64 = 46;

pub const SMS_PRIVACY: u64 = 47;

pub const EMERGENCY: u64 = 48;

pub const PAGING_CAUSE_GIVEN: u64 = 49;

pub const PAGING_CAUSE: u64 = 50;

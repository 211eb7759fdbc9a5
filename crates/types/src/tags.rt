// The tags of the two types, each as one number: its bytes one behind the other, 0 for the third where it has two.
// Stays: `tag_at` and `tag_number` promise a tag as one number, and `pack_one` that no two have the same.
const FIRST: u32 = 65536;

const SECOND: u32 = 256;

pub const TAG_20: u32 = b'2' as u32 * FIRST + b'0' as u32 * SECOND;

pub const TAG_21: u32 = b'2' as u32 * FIRST + b'1' as u32 * SECOND;

pub const TAG_23B: u32 = b'2' as u32 * FIRST + b'3' as u32 * SECOND + b'B' as u32;

pub const TAG_26T: u32 = b'2' as u32 * FIRST + b'6' as u32 * SECOND + b'T' as u32;

pub const TAG_32A: u32 = b'3' as u32 * FIRST + b'2' as u32 * SECOND + b'A' as u32;

pub const TAG_50K: u32 = b'5' as u32 * FIRST + b'0' as u32 * SECOND + b'K' as u32;

pub const TAG_52A: u32 = b'5' as u32 * FIRST + b'2' as u32 * SECOND + b'A' as u32;

pub const TAG_53B: u32 = b'5' as u32 * FIRST + b'3' as u32 * SECOND + b'B' as u32;

pub const TAG_56A: u32 = b'5' as u32 * FIRST + b'6' as u32 * SECOND + b'A' as u32;

pub const TAG_56D: u32 = b'5' as u32 * FIRST + b'6' as u32 * SECOND + b'D' as u32;

pub const TAG_57A: u32 = b'5' as u32 * FIRST + b'7' as u32 * SECOND + b'A' as u32;

pub const TAG_57D: u32 = b'5' as u32 * FIRST + b'7' as u32 * SECOND + b'D' as u32;

pub const TAG_58A: u32 = b'5' as u32 * FIRST + b'8' as u32 * SECOND + b'A' as u32;

pub const TAG_58D: u32 = b'5' as u32 * FIRST + b'8' as u32 * SECOND + b'D' as u32;

pub const TAG_59: u32 = b'5' as u32 * FIRST + b'9' as u32 * SECOND;

pub const TAG_70: u32 = b'7' as u32 * FIRST + b'0' as u32 * SECOND;

pub const TAG_71A: u32 = b'7' as u32 * FIRST + b'1' as u32 * SECOND + b'A' as u32;

pub const TAG_72: u32 = b'7' as u32 * FIRST + b'2' as u32 * SECOND;

pub const TAG_77B: u32 = b'7' as u32 * FIRST + b'7' as u32 * SECOND + b'B' as u32;

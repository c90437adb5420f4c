//! The table of cases: in which state a node is, which frames come, and what it makes of each.
use crate::setup::{State, Turn};
use node::Served::{Aborted, Answered, Committed, Dropped, Kept};

/// Some turns of a node in a state.
pub(crate) struct Case {
    pub name: &'static str,
    pub state: State,
    pub turns: &'static [Turn],
}

/// The start of a write of nine bytes to 2001:00.
const WRITE: Turn = Turn(0x21_012000_09000000, Answered, Some(0x60_012000_00000000));

/// The start of a write to 2001:00 whose size is unknown.
const WRITE_UNKNOWN: Turn = Turn(0x20_012000_00000000, Answered, Some(0x60_012000_00000000));

/// The first segment of the digits.
const SEGMENT: Turn = Turn(0x00_313233_34353637, Answered, Some(0x20_000000_00000000));

/// The second and last one.
const LAST_SEGMENT: Turn = Turn(0x1b_383900_00000000, Committed, Some(0x30_000000_00000000));

/// The start of a read of 1008:00.
const READ_NAME: Turn = Turn(0x40_081000_00000000, Answered, Some(0x41_081000_06000000));

/// The start of a read of the digits.
const READ_DIGITS: Turn = Turn(0x40_012000_00000000, Answered, Some(0x41_012000_09000000));

/// The first segment of the digits that are read.
const DIGITS: Turn = Turn(0x60_000000_00000000, Answered, Some(0x00_313233_34353637));

/// The start of a block write of nine bytes to 2001:00, with a CRC.
const BLOCK: Turn = Turn(0xc6_012000_09000000, Answered, Some(0xa4_012000_7f000000));

/// The start of a block write of eight bytes to 2001:00, with a CRC.
const BLOCK_OF_8: Turn = Turn(0xc6_012000_08000000, Answered, Some(0xa4_012000_7f000000));

/// The first block segment of the digits.
const BLOCK_SEGMENT: Turn = Turn(0x01_313233_34353637, Kept, None);

/// The second and last one.
const LAST_BLOCK_SEGMENT: Turn = Turn(0x82_383900_00000000, Answered, Some(0xa2_027f00_00000000));

/// The end of the block write with the right CRC.
const END: Turn = Turn(0xd5_c33100_00000000, Committed, Some(0xa1_000000_00000000));

/// The end of the block write with a wrong CRC.
const WRONG_END: Turn = Turn(0xd5_c23100_00000000, Aborted, Some(0x80_012000_04000405));

/// A block segment that is kept and ends its sub-block of one.
const ONLY_SEGMENT: Turn = Turn(0x01_090909_09090909, Answered, Some(0xa2_010100_00000000));

/// A new node.
const IDLE: State = State {
    block_size: 127,
    start: &[],
    times: 0,
    filling: &[],
};

/// A write of nine bytes.
const WRITING: State = State {
    block_size: 127,
    start: &[WRITE],
    times: 0,
    filling: &[],
};

/// A write that has 1,022 bytes.
const NEARLY_FULL: State = State {
    block_size: 127,
    start: &[WRITE_UNKNOWN],
    times: 73,
    filling: &[
        Turn(0x00_010203_04050607, Answered, Some(0x20_000000_00000000)),
        Turn(0x10_010203_04050607, Answered, Some(0x30_000000_00000000)),
    ],
};

/// A read of 1008:00.
const READING: State = State {
    block_size: 127,
    start: &[READ_NAME],
    times: 0,
    filling: &[],
};

/// A read of the digits.
const READING_DIGITS: State = State {
    block_size: 127,
    start: &[WRITE, SEGMENT, LAST_SEGMENT, READ_DIGITS],
    times: 0,
    filling: &[],
};

/// A block write in sub-blocks of 127 segments.
pub(crate) const BLOCK_127: State = State {
    block_size: 127,
    start: &[Turn(0xc4_012000_00000000, Answered, Some(0xa4_012000_7f000000))],
    times: 0,
    filling: &[],
};

/// A block write in sub-blocks of three.
const BLOCK_3: State = State {
    block_size: 3,
    start: &[Turn(0xc4_012000_00000000, Answered, Some(0xa4_012000_03000000))],
    times: 0,
    filling: &[],
};

/// A block write in sub-blocks of two.
const BLOCK_2: State = State {
    block_size: 2,
    start: &[Turn(0xc4_012000_00000000, Answered, Some(0xa4_012000_02000000))],
    times: 0,
    filling: &[],
};

/// A block write in sub-blocks of one that has 147 segments.
const FULL_OF_ONES: State = State {
    block_size: 1,
    start: &[Turn(0xc4_012000_00000000, Answered, Some(0xa4_012000_01000000))],
    times: 147,
    filling: &[ONLY_SEGMENT],
};

/// A block write in sub-blocks of seven that has 147 segments.
const FULL: State = State {
    block_size: 7,
    start: &[Turn(0xc4_012000_00000000, Answered, Some(0xa4_012000_07000000))],
    times: 21,
    filling: &[
        Turn(0x01_090909_09090909, Kept, None),
        Turn(0x02_090909_09090909, Kept, None),
        Turn(0x03_090909_09090909, Kept, None),
        Turn(0x04_090909_09090909, Kept, None),
        Turn(0x05_090909_09090909, Kept, None),
        Turn(0x06_090909_09090909, Kept, None),
        Turn(0x07_090909_09090909, Answered, Some(0xa2_070700_00000000)),
    ],
};

/// A block write of the digits whose end is awaited.
const AWAITS_END: State = State {
    block_size: 127,
    start: &[BLOCK, BLOCK_SEGMENT, LAST_BLOCK_SEGMENT],
    times: 0,
    filling: &[],
};

/// A block write with no size and no CRC, in sub-blocks of one.
const PLAIN_BLOCK: State = State {
    block_size: 1,
    start: &[Turn(0xc0_012000_00000000, Answered, Some(0xa4_012000_01000000))],
    times: 0,
    filling: &[],
};

/// The same that has 146 segments.
const PLAIN_BLOCK_146: State = State {
    block_size: 1,
    start: &[Turn(0xc0_012000_00000000, Answered, Some(0xa4_012000_01000000))],
    times: 146,
    filling: &[ONLY_SEGMENT],
};

/// Starts and aborts, then segments, then blocks.
pub(crate) static CASES: [Case; 58] = [
    Case {
        name: "the ramp is set",
        state: IDLE,
        turns: &[
            Turn(0x2b_002001_e8030000, Committed, Some(0x60_002001_00000000)),
            Turn(0x40_002001_00000000, Answered, Some(0x4b_002001_e8030000)),
        ],
    },
    Case {
        name: "the device type is read and not written",
        state: IDLE,
        turns: &[
            Turn(0x40_001000_00000000, Answered, Some(0x43_001000_92010200)),
            Turn(0x23_001000_91010200, Aborted, Some(0x80_001000_02000106)),
            Turn(0x23_001000_01020304, Aborted, Some(0x80_001000_02000106)),
        ],
    },
    Case {
        name: "an expedited start without a size carries four bytes",
        state: IDLE,
        turns: &[
            Turn(0x22_012000_01020304, Committed, Some(0x60_012000_00000000)),
            Turn(0x40_012000_00000000, Answered, Some(0x43_012000_01020304)),
        ],
    },
    Case {
        name: "missing entries are refused in every start",
        state: IDLE,
        turns: &[
            Turn(0x40_091000_00000000, Aborted, Some(0x80_091000_00000206)),
            Turn(0x40_012009_00000000, Aborted, Some(0x80_012009_11000906)),
            Turn(0x20_002002_00000000, Aborted, Some(0x80_002002_11000906)),
            Turn(0x2f_003009_00000000, Aborted, Some(0x80_003009_00000206)),
            Turn(0xc4_001000_00000000, Aborted, Some(0x80_001000_02000106)),
        ],
    },
    Case {
        name: "an announced length is judged in the start",
        state: IDLE,
        turns: &[
            Turn(0x21_002001_03000000, Aborted, Some(0x80_002001_12000706)),
            Turn(0xc6_002001_01000000, Aborted, Some(0x80_002001_13000706)),
            Turn(0x21_012000_01040000, Aborted, Some(0x80_012000_12000706)),
            Turn(0x21_012000_00000000, Aborted, Some(0x80_012000_13000706)),
            Turn(0xc6_012000_ffffffff, Aborted, Some(0x80_012000_12000706)),
        ],
    },
    Case {
        name: "the length of a value at once is judged",
        state: IDLE,
        turns: &[
            Turn(0x2f_002001_05000000, Aborted, Some(0x80_002001_13000706)),
            Turn(0x27_002001_05000000, Aborted, Some(0x80_002001_12000706)),
        ],
    },
    Case {
        name: "0x00 is an unknown command to an idle node",
        state: IDLE,
        turns: &[Turn(0x00_002001_00000000, Aborted, Some(0x80_000000_01000405))],
    },
    Case {
        name: "0x10 is an unknown command to an idle node",
        state: IDLE,
        turns: &[Turn(0x10_002001_00000000, Aborted, Some(0x80_000000_01000405))],
    },
    Case {
        name: "0x60 is an unknown command to an idle node",
        state: IDLE,
        turns: &[Turn(0x60_002001_00000000, Aborted, Some(0x80_000000_01000405))],
    },
    Case {
        name: "0xa2 is an unknown command to an idle node",
        state: IDLE,
        turns: &[Turn(0xa2_002001_00000000, Aborted, Some(0x80_000000_01000405))],
    },
    Case {
        name: "0xc1 is an unknown command to an idle node",
        state: IDLE,
        turns: &[Turn(0xc1_002001_00000000, Aborted, Some(0x80_000000_01000405))],
    },
    Case {
        name: "0xff is an unknown command to an idle node",
        state: IDLE,
        turns: &[Turn(0xff_002001_00000000, Aborted, Some(0x80_000000_01000405))],
    },
    Case {
        name: "an abort is dropped when idle and ends a transfer",
        state: IDLE,
        turns: &[
            Turn(0x80_000000_00000405, Dropped, None),
            WRITE_UNKNOWN,
            Turn(0x80_000000_00000405, Aborted, None),
            Turn(0x80_000000_00000405, Dropped, None),
        ],
    },
    Case {
        name: "a start replaces a transfer",
        state: IDLE,
        turns: &[
            WRITE_UNKNOWN,
            READ_NAME,
            Turn(0x00_010203_04050607, Aborted, Some(0x80_081000_01000405)),
        ],
    },
    Case {
        name: "the device name is read",
        state: READING,
        turns: &[
            Turn(0x60_000000_00000000, Answered, Some(0x03_6c6f61_64657200)),
            Turn(0x60_000000_00000000, Aborted, Some(0x80_000000_01000405)),
        ],
    },
    Case {
        name: "nine bytes are written and read",
        state: READING_DIGITS,
        turns: &[
            DIGITS,
            Turn(0x70_000000_00000000, Answered, Some(0x1b_383900_00000000)),
        ],
    },
    Case {
        name: "an unknown size is not compared",
        state: IDLE,
        turns: &[WRITE_UNKNOWN, SEGMENT, LAST_SEGMENT],
    },
    Case {
        name: "the first toggle is 0",
        state: WRITING,
        turns: &[
            Turn(0x10_313233_34353637, Aborted, Some(0x80_012000_00000305)),
            READ_NAME,
            Turn(0x70_000000_00000000, Aborted, Some(0x80_081000_00000305)),
        ],
    },
    Case {
        name: "a toggle that stays is refused",
        state: WRITING,
        turns: &[
            SEGMENT,
            Turn(0x0b_383900_00000000, Aborted, Some(0x80_012000_00000305)),
        ],
    },
    Case {
        name: "a size that differs is refused",
        state: WRITING,
        turns: &[Turn(0x01_313233_34353637, Aborted, Some(0x80_012000_10000706))],
    },
    Case {
        name: "a value of unknown size is judged at its end",
        state: IDLE,
        turns: &[
            Turn(0x20_002001_00000000, Answered, Some(0x60_002001_00000000)),
            Turn(0x01_010203_04050607, Aborted, Some(0x80_002001_12000706)),
        ],
    },
    Case {
        name: "no bytes at the end are too few",
        state: IDLE,
        turns: &[
            WRITE_UNKNOWN,
            Turn(0x0f_000000_00000000, Aborted, Some(0x80_012000_13000706)),
        ],
    },
    Case {
        name: "what another transfer awaits is refused",
        state: WRITING,
        turns: &[
            Turn(0x60_000000_00000000, Aborted, Some(0x80_012000_01000405)),
            WRITE,
            Turn(0xd5_c33100_00000000, Aborted, Some(0x80_012000_01000405)),
            WRITE,
            Turn(0xe0_000000_00000000, Aborted, Some(0x80_012000_01000405)),
        ],
    },
    Case {
        name: "a read does not await 0x00",
        state: READING,
        turns: &[Turn(0x00_000000_00000000, Aborted, Some(0x80_081000_01000405))],
    },
    Case {
        name: "a read does not await 0xa1",
        state: READING,
        turns: &[Turn(0xa1_000000_00000000, Aborted, Some(0x80_081000_01000405))],
    },
    Case {
        name: "a read does not await 0xd5",
        state: READING,
        turns: &[Turn(0xd5_000000_00000000, Aborted, Some(0x80_081000_01000405))],
    },
    Case {
        name: "a read does not await 0xe0",
        state: READING,
        turns: &[Turn(0xe0_000000_00000000, Aborted, Some(0x80_081000_01000405))],
    },
    Case {
        name: "an abort of another multiplexor ends a read",
        state: READING,
        turns: &[
            Turn(0x9f_010203_00000008, Aborted, None),
            Turn(0x60_000000_00000000, Aborted, Some(0x80_000000_01000405)),
        ],
    },
    Case {
        name: "a toggle that stays is refused in a read",
        state: READING_DIGITS,
        turns: &[
            DIGITS,
            Turn(0x60_000000_00000000, Aborted, Some(0x80_012000_00000305)),
        ],
    },
    Case {
        name: "more bytes than announced are told at the end",
        state: WRITING,
        turns: &[
            SEGMENT,
            Turn(0x10_010203_04050607, Answered, Some(0x30_000000_00000000)),
            Turn(0x01_010203_04050607, Aborted, Some(0x80_012000_10000706)),
        ],
    },
    Case {
        name: "a segment may have no bytes",
        state: IDLE,
        turns: &[
            WRITE_UNKNOWN,
            Turn(0x0e_010203_04050607, Answered, Some(0x20_000000_00000000)),
            LAST_SEGMENT,
            Turn(0x40_012000_00000000, Answered, Some(0x4b_012000_38390000)),
        ],
    },
    Case {
        name: "no more than 1024 bytes are received",
        state: NEARLY_FULL,
        turns: &[Turn(0x08_010203_00000000, Aborted, Some(0x80_012000_12000706))],
    },
    Case {
        name: "all 1024 bytes are received",
        state: NEARLY_FULL,
        turns: &[Turn(0x0b_010200_00000000, Committed, Some(0x20_000000_00000000))],
    },
    Case {
        name: "the digits are written",
        state: AWAITS_END,
        turns: &[END, READ_DIGITS, DIGITS],
    },
    Case {
        name: "a wrong crc is refused",
        state: AWAITS_END,
        turns: &[WRONG_END],
    },
    Case {
        name: "a crc that was not offered is not looked at",
        state: IDLE,
        turns: &[
            Turn(0xc2_012000_09000000, Answered, Some(0xa4_012000_7f000000)),
            BLOCK_SEGMENT,
            LAST_BLOCK_SEGMENT,
            Turn(0xd5_555500_00000000, Committed, Some(0xa1_000000_00000000)),
        ],
    },
    Case {
        name: "a block size that differs is refused",
        state: IDLE,
        turns: &[
            BLOCK_OF_8,
            BLOCK_SEGMENT,
            LAST_BLOCK_SEGMENT,
            Turn(0xd5_c33100_00000000, Aborted, Some(0x80_012000_10000706)),
        ],
    },
    Case {
        name: "a wrong crc is told before a size that differs",
        state: IDLE,
        turns: &[BLOCK_OF_8, BLOCK_SEGMENT, LAST_BLOCK_SEGMENT, WRONG_END],
    },
    Case {
        name: "segments out of order are dropped",
        state: BLOCK_3,
        turns: &[
            Turn(0x02_090909_09090909, Dropped, None),
            Turn(0x03_090909_09090909, Answered, Some(0xa2_000300_00000000)),
            BLOCK_SEGMENT,
            Turn(0x01_090909_09090909, Dropped, None),
            Turn(0x03_090909_09090909, Answered, Some(0xa2_010300_00000000)),
            BLOCK_SEGMENT,
        ],
    },
    Case {
        name: "numbers that no segment has are dropped",
        state: BLOCK_2,
        turns: &[
            Turn(0x00_090909_09090909, Dropped, None),
            Turn(0x03_090909_09090909, Dropped, None),
            Turn(0x23_090909_09090909, Dropped, None),
            Turn(0x7f_090909_09090909, Dropped, None),
            BLOCK_SEGMENT,
        ],
    },
    Case {
        name: "a last segment that was not awaited ends the sub-block",
        state: BLOCK_2,
        turns: &[
            Turn(0x82_090909_09090909, Answered, Some(0xa2_000200_00000000)),
            BLOCK_SEGMENT,
            Turn(0x81_090909_09090909, Answered, Some(0xa2_010200_00000000)),
            BLOCK_SEGMENT,
        ],
    },
    Case {
        name: "an end before the last segment is a segment",
        state: IDLE,
        turns: &[
            BLOCK,
            BLOCK_SEGMENT,
            Turn(0xd5_090909_09090909, Answered, Some(0xa2_017f00_00000000)),
            BLOCK_SEGMENT,
        ],
    },
    Case {
        name: "only 0x80 is an abort in block reception",
        state: BLOCK_127,
        turns: &[
            BLOCK_SEGMENT,
            Turn(0x90_090909_09090909, Answered, Some(0xa2_017f00_00000000)),
            Turn(0x80_000000_00000008, Aborted, None),
            Turn(0x01_313233_34353637, Aborted, Some(0x80_000000_01000405)),
        ],
    },
    Case {
        name: "a start replaces a block write that awaits its end",
        state: AWAITS_END,
        turns: &[BLOCK, BLOCK_SEGMENT, LAST_BLOCK_SEGMENT, END],
    },
    Case {
        name: "0x00 is no end of a block write",
        state: AWAITS_END,
        turns: &[Turn(0x00_010203_04050607, Aborted, Some(0x80_012000_01000405))],
    },
    Case {
        name: "0x60 is no end of a block write",
        state: AWAITS_END,
        turns: &[Turn(0x60_010203_04050607, Aborted, Some(0x80_012000_01000405))],
    },
    Case {
        name: "0xa1 is no end of a block write",
        state: AWAITS_END,
        turns: &[Turn(0xa1_010203_04050607, Aborted, Some(0x80_012000_01000405))],
    },
    Case {
        name: "0xe0 is no end of a block write",
        state: AWAITS_END,
        turns: &[Turn(0xe0_010203_04050607, Aborted, Some(0x80_012000_01000405))],
    },
    Case {
        name: "an abort ends a block write that awaits its end",
        state: AWAITS_END,
        turns: &[Turn(0x9f_012000_00000008, Aborted, None)],
    },
    Case {
        name: "starts are segments in block reception",
        state: IDLE,
        turns: &[
            BLOCK,
            BLOCK_SEGMENT,
            Turn(0x23_090909_09090909, Dropped, None),
            Turn(0x40_090909_09090909, Dropped, None),
            LAST_BLOCK_SEGMENT,
            END,
        ],
    },
    Case {
        name: "a 148th segment spoils the transfer",
        state: FULL_OF_ONES,
        turns: &[
            Turn(0x02_090909_09090909, Dropped, None),
            Turn(0x01_090909_09090909, Aborted, Some(0x80_012000_12000706)),
        ],
    },
    Case {
        name: "a spoiled transfer is told at the end of its sub-block",
        state: FULL,
        turns: &[
            Turn(0x01_090909_09090909, Dropped, None),
            Turn(0x01_090909_09090909, Dropped, None),
            Turn(0x02_090909_09090909, Dropped, None),
            Turn(0x07_090909_09090909, Aborted, Some(0x80_012000_12000706)),
        ],
    },
    Case {
        name: "a 148th segment that is the last is told at once",
        state: FULL,
        turns: &[Turn(0x81_090909_09090909, Aborted, Some(0x80_012000_12000706))],
    },
    Case {
        name: "an abort ends a spoiled transfer",
        state: FULL,
        turns: &[
            Turn(0x01_090909_09090909, Dropped, None),
            Turn(0x80_012000_00000008, Aborted, None),
        ],
    },
    Case {
        name: "a block write has up to 1024 bytes",
        state: PLAIN_BLOCK_146,
        turns: &[
            Turn(0x81_090909_09090909, Answered, Some(0xa2_010100_00000000)),
            Turn(0xd5_000000_00000000, Committed, Some(0xa1_000000_00000000)),
        ],
    },
    Case {
        name: "a block write has no more than 1024 bytes",
        state: PLAIN_BLOCK_146,
        turns: &[
            Turn(0x81_090909_09090909, Answered, Some(0xa2_010100_00000000)),
            Turn(0xd1_000000_00000000, Aborted, Some(0x80_012000_12000706)),
        ],
    },
    Case {
        name: "a block write has one byte at least",
        state: PLAIN_BLOCK,
        turns: &[
            Turn(0x81_090909_09090909, Answered, Some(0xa2_010100_00000000)),
            Turn(0xd9_000000_00000000, Committed, Some(0xa1_000000_00000000)),
        ],
    },
    Case {
        name: "a block write without a byte is refused",
        state: PLAIN_BLOCK,
        turns: &[
            Turn(0x81_090909_09090909, Answered, Some(0xa2_010100_00000000)),
            Turn(0xdd_000000_00000000, Aborted, Some(0x80_012000_13000706)),
        ],
    },
];

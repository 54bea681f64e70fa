// Faults of a line by itself: numbers, colours, bytes and uuids.
use crate::outcomes::check_lines;
use std::test::Fail;

/// A word of each kind of line that is not spelled as it has to be.
const NUMBERS: &[&str] = &[
    // paint lines, each place
    "open x 0 0 1 1 | open 1 0x 0 1 1 | open 1 0 - 1 1 | open 1 0 0 -1 1 | open 1 0 0 1 1.",
    "close +1",
    "fill one 0 0 1 1 000000 | fill 1 -0 0 1 1 000000 | fill 1 0 0x1 1 1 000000",
    "fill 1 0 0 1a 1 000000 | fill 1 0 0 1 # 000000 | fill 1 0 0 1 1 00000g",
    "copy 1: 0 0 1 1 0 0 | copy 1 -1 0 1 1 0 0 | copy 1 0 -1 1 1 0 0 | copy 1 0 0 1, 1 0 0",
    "copy 1 0 0 1 1; 0 0 | copy 1 0 0 1 1 -0 0 | copy 1 0 0 1 1 0 -0",
    "noise a 0 0 1 1 0 | noise 1 b 0 1 1 0 | noise 1 0 c 1 1 0 | noise 1 0 0 d 1 0",
    "noise 1 0 0 1 e 0 | noise 1 0 0 1 1 -1",
    "resize 1/ 1 1 | resize 1 -1 1 | resize 1 1 1:",
    "move -1 0 0 | move 1 --1 0 | move 1 0 0-",
    "raise 1e",
    // peer lines
    "peer exact \x7f | peer exact u\u{e9} | peer exact \x01",
    "peer exact uuuuuuuuuuuuuuuuuuuuuuuuuuuuuuuuuuuuuuuuuuuuuuuuuuuuuuuuuuuuuuuuu",
    "peer lossy \x7f",
    "peer lossy uuuuuuuuuuuuuuuuuuuuuuuuuuuuuuuuuuuuuuuuuuuuuuuuuuuuuuuuuuuuuuuuu | peer dry x",
    "peer dry -1 | peer hex 0 | peer hex 0x00 | peer hex 000 | peer hex 0g",
    "map k 1 | map 0 w",
    "unmap k 1 | unmap 0 w",
    "refresh k 1 | refresh 0 w",
    "leave -0",
    "say k 00 | say 0 0 | say 0 g0",
    // plan lines
    "read k",
    "capture k 1 | capture 0 w",
    "finish j | finish -1",
    "send k 1 | send 0 max",
    "owed k 1 | owed 0 w",
    "wait -1 | wait 1.5",
    // eleven digits; signs; colours of five digits, and of seven
    "close 00000000001 | close 10000000001",
    "move 1 -00000000001 0 | move 1 00000000000 0",
    "finish 10000000000",
    "wait 00000000000",
    "move 1 - 0 | move 1 +1 0 | move 1 0 +0",
    "fill 1 0 0 1 1 00000 | fill 1 0 0 1 1 0000000 | fill 1 0 0 1 1 -00000",
    "fill 1 0 0 1 1 0x0000",
];

#[test]
fn each_word_is_spelled_as_its_place_wants_it(rt: HostRuntime) -> Result<(), Fail> {
    check_lines(&rt, rt.alloc(), "number", NUMBERS)
}

/// A number of each kind of line that is one too small or one too great.
const RANGES: &[&str] = &[
    // paint lines, each place
    "open 0 0 0 1 1 | open 65536 0 0 1 1 | open 1 -32769 0 1 1 | open 1 32768 0 1 1",
    "open 1 0 -32769 1 1 | open 1 0 32768 1 1 | open 1 0 0 0 1 | open 1 0 0 4097 1",
    "open 1 0 0 1 0 | open 1 0 0 1 4097",
    "close 0 | close 65536",
    "fill 0 0 0 1 1 000000 | fill 65536 0 0 1 1 000000 | fill 1 4096 0 1 1 000000",
    "fill 1 0 4096 1 1 000000 | fill 1 0 0 0 1 000000 | fill 1 0 0 4097 1 000000",
    "fill 1 0 0 1 0 000000 | fill 1 0 0 1 4097 000000",
    "copy 0 0 0 1 1 0 0 | copy 65536 0 0 1 1 0 0 | copy 1 4096 0 1 1 0 0 | copy 1 0 4096 1 1 0 0",
    "copy 1 0 0 0 1 0 0 | copy 1 0 0 4097 1 0 0 | copy 1 0 0 1 0 0 0 | copy 1 0 0 1 4097 0 0",
    "copy 1 0 0 1 1 4096 0 | copy 1 0 0 1 1 0 4096",
    "noise 0 0 0 1 1 0 | noise 65536 0 0 1 1 0 | noise 1 4096 0 1 1 0 | noise 1 0 4096 1 1 0",
    "noise 1 0 0 0 1 0 | noise 1 0 0 4097 1 0 | noise 1 0 0 1 0 0 | noise 1 0 0 1 4097 0",
    "noise 1 0 0 1 1 4294967296 | noise 1 0 0 1 1 9999999999",
    "resize 0 1 1 | resize 65536 1 1 | resize 1 0 1 | resize 1 4097 1 | resize 1 1 0",
    "resize 1 1 4097",
    "move 0 0 0 | move 65536 0 0 | move 1 -32769 0 | move 1 32768 0 | move 1 0 -32769",
    "move 1 0 32768 | move 1 -9999999999 0",
    "raise 0 | raise 65536",
    // peer lines
    "peer dry 100001",
    "map 100000 1 | map 0 0 | map 0 65536",
    "unmap 100000 1 | unmap 0 0 | unmap 0 65536",
    "refresh 100000 1 | refresh 0 0 | refresh 0 65536",
    "leave 100000 | leave 4294967296",
    "say 100000 00",
    // plan lines
    "read 100000 | read 4294967296",
    "capture 100000 1 | capture 0 0 | capture 0 65536",
    "finish 0",
    "send 100000 1 | send 0 0 | send 0 16777217",
    "owed 100000 1 | owed 0 0 | owed 0 65536",
    "wait 1000001",
];

#[test]
fn each_number_is_in_its_range(rt: HostRuntime) -> Result<(), Fail> {
    check_lines(&rt, rt.alloc(), "range", RANGES)
}

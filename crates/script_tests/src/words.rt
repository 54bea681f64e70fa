// Faults of a line by itself: its first word, how many words it has, and how each is spelled.
use crate::outcomes::check_lines;
use std::test::Fail;

/// The first word names no line, or the word after `peer` no peer.
const WORDS: &[&str] = &[
    // the first word is misspelled
    "opens 1 0 0 1 1 | Open 1 0 0 1 1 | closed 1 | CLOSE 1 | fil 1 0 0 1 1 000000",
    "copies 1 0 0 1 1 0 0 | nois 1 0 0 1 1 0 | resized 1 1 1 | moves 1 0 0 | rais 1",
    "peers exact | Peer exact | maps 0 1 | unma 0 1 | refreshes 0 1 | leaves 0 | says 0 00",
    "accepts | reads 0 | captur 0 1 | takes | finished 1 | sends 0 1 | owes 0 1 | await 1",
    "turns | exact | lossy | hex 00 | dry 1 | frob | 1 | -",
    // the word after `peer` is missing or none of the four
    "peer | peer  | peer exactly | peer Exact | peer lossless u | peer dried 1 | peer hexa 00",
    "peer peer exact | peer open 1 0 0 1 1",
    // a blank before `#`, and bytes that are no blanks
    " # a comment | \t# | turn\x0b | \x0cturn | turn\u{a0} | turn\r\r | \r\r | \rturn | turn\r ",
];

#[test]
fn a_line_begins_with_a_word_of_the_table(rt: HostRuntime) -> Result<(), Fail> {
    check_lines(&rt, rt.alloc(), "word", WORDS)
}

/// A word too few, and a word too many, of each kind of line.
const COUNTS: &[&str] = &[
    // paint lines
    "open 1 0 0 1 | open 1 0 0 1 1 1",
    "close | close 1 1",
    "fill 1 0 0 1 1 | fill 1 0 0 1 1 000000 0",
    "copy 1 0 0 1 1 0 | copy 1 0 0 1 1 0 0 0",
    "noise 1 0 0 1 1 | noise 1 0 0 1 1 0 0",
    "resize 1 1 | resize 1 1 1 1",
    "move 1 0 | move 1 0 0 0",
    "raise | raise 1 1",
    // peer lines
    "peer exact u v | peer lossy u v | peer dry | peer dry 1 1 | peer hex | peer hex 00 00",
    "map 0 | map 0 1 1",
    "unmap 0 | unmap 0 1 1",
    "refresh 0 | refresh 0 1 1",
    "leave | leave 0 0",
    "say 0 | say 0 00 00",
    // plan lines
    "accept 0",
    "read | read 0 0",
    "capture 0 | capture 0 1 1",
    "take 1",
    "finish | finish 1 1",
    "send 0 | send 0 1 1",
    "owed 0 | owed 0 1 1",
    "wait | wait 0 0",
    "turn 1",
    // no words after the first, or as many as there can be
    "open",
    "fill",
    "copy",
    "map",
    "say",
    "send",
    "turn # a comment",
];

#[test]
fn each_kind_of_line_has_its_number_of_words(rt: HostRuntime) -> Result<(), Fail> {
    check_lines(&rt, rt.alloc(), "count", COUNTS)
}

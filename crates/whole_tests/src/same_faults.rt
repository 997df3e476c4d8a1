//! What is told of a line is the fault that the parser has: over lines of each form, cut after each byte, with a word left away, doubled, or
//! another one in its place.

use crate::expecting::same_at;
use job_cli::read_jobs;
use script_cli::{ScriptFault, VERBS, read_script};
use std::alloc::AllocGlobal;
use std::process::Abort;
use texts::faults::{Grammar, find, form_text};

/// A line of each form of `steps`.
const STEPS: [&str; 12] = [
    "reserve 1 read 18446744073709551615 4294967295 0+512 x512 4095+1",
    "reserve 0 compare 0 1",
    "reserve 1 read 0 1 0+512 nsid 4294967295 fua lr",
    "\tfill 65535 0 00aBcD",
    "forge 1 3 00112233445566778899AABBCCDDEEFF",
    "build 1 0",
    "  delete_sq 1",
    "create_cq 1",
    "create_cq 1 vector 65535",
    "reset",
    "owners  ",
    "# a comment",
];

/// A line of each form of `threads`, for three submitters.
const JOBS: [&str; 5] = [
    "job 2 1 read 18446744073709551615 4294967295 0+512 x512 4095+1",
    "job 0 1 write 0 1 00aBcD 0+512",
    " job 1 1 compare 0 1 AB",
    "job 0 1 write 0 1 AB 0+512 nsid 2 lr",
    "# a comment",
];

/// Words that may stand where another is wanted, or before it; none, so that the other one is left away.
const WORDS: [&[u8]; 29] = [
    b"",
    b"0",
    b"3",
    b"65535",
    b"65536",
    b"4294967295",
    b"4294967296",
    b"18446744073709551616",
    b"000000000000000000001",
    b"-1",
    b"+1",
    b"0x1",
    b"AB",
    b"ABC",
    b"0+512",
    b"x512",
    b"x",
    b"0+",
    b"read",
    b"job",
    b"ring",
    b"nsid",
    b"fua",
    b"lr",
    b"vector",
    b"#",
    b"1\r",
    b"\xC3\xA9",
    b"00112233445566778899AABBCCDDEEFF",
];

/// Sees that what is told of a line, put together from its parts, is the fault that the parser has of it.
fn see<R: Abort + AllocGlobal>(rt: &R, grammar: Grammar, parts: &[&[u8]]) {
    let alloc = rt.alloc();
    let line = parts.concat(alloc).expect(rt, "memory");
    let read = match grammar {
        Grammar::Steps => read_script(alloc, &line).err(),
        Grammar::Jobs(submitters) => read_jobs(alloc, &line, submitters).err(),
    };
    let wanted = match read {
        None => None,
        Some(ScriptFault::Line { number: _, fault }) => Some(fault),
        Some(_) => panic!(rt; "memory"),
    };
    let found = match find(alloc, grammar, &line).expect(rt, "memory") {
        None => None,
        Some(found) => Some(found.fault),
    };
    same_at(rt, line.as_slice(), found, wanted);
}

/// Sees a line cut after each byte, and with each of its words left away, doubled, and with another one in its place or before it.
fn see_changed<R: Abort + AllocGlobal>(rt: &R, grammar: Grammar, line: &[u8]) {
    let mut start = 0;
    for end in 0..=line.len() {
        let (before, rest) = line.split_at(end);
        see(rt, grammar, &[before]);
        let Some((front, word)) = before.split_at_checked(start) else {
            continue;
        };
        match rest.first() {
            Some(byte) if !byte.is_ascii_whitespace() => continue,
            _ => start = end.saturating_add(1),
        }
        see(rt, grammar, &[front, word, b" ", word, rest]);
        for other in WORDS {
            see(rt, grammar, &[front, other, rest]);
            see(rt, grammar, &[front, other, b" ", word, rest]);
        }
    }
}

#[test]
fn the_fault_is_the_parsers(rt: HostRuntime) {
    for (grammar, lines) in [
        (Grammar::Steps, STEPS.as_slice()),
        (Grammar::Jobs(3), JOBS.as_slice()),
    ] {
        for line in lines {
            see_changed(&rt, grammar, line.as_bytes());
        }
        see(&rt, grammar, &[[b' '; 16_385].as_slice()]);
    }
}

/// The form of each verb, with a number for each word, is what the parser takes of it: no word less and no word more.
#[test]
fn forms_are_what_is_parsed(rt: HostRuntime) {
    for verb in VERBS {
        let form = form_text(rt.alloc(), verb).expect(&rt, "memory");
        let mut line = Vec::new(rt.alloc());
        for word in form.as_str().split_whitespace() {
            let word = match word {
                "HEX" => b"00112233445566778899AABBCCDDEEFF".as_slice(),
                "KIND" => b"read",
                "PIECE.." => b"0+512",
                "Q" | "CID" | "SLOT" | "SLBA" | "BLOCKS" => b"1",
                name => name.as_bytes(),
            };
            line.extend_from_slice(word).expect(&rt, "memory");
            line.push(b' ').expect(&rt, "memory");
        }
        same_at(
            &rt,
            verb.name(),
            read_script(rt.alloc(), &line).is_ok(),
            true,
        );
    }
}

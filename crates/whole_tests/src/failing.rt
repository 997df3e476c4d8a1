//! Texts that are cut after each byte, readers that fail after each, and writers that fail at each write and at each flush.

use crate::door::{After, Limit, Wanted, ended, see};
use crate::expecting::same_at;
use crate::stored::{ANSWERED, JOBS, STEPS, TYPED};

/// A command that reads a script.
struct Reading {
    words: &'static [&'static str],
    text: &'static str,
    /// The command that tells of a cut what this one does; this one itself where there is none.
    check: &'static [&'static str],
    /// What is answered before all of the script is read.
    answered: &'static str,
}

const STEPS_READ: Reading = Reading {
    words: &["nvmesgl", "steps"],
    text: STEPS,
    check: &["nvmesgl", "check"],
    answered: "",
};

const JOBS_READ: Reading = Reading {
    words: &["nvmesgl", "threads"],
    text: JOBS,
    check: &["nvmesgl", "check", "--jobs"],
    answered: "",
};

const READS: [Reading; 8] = [
    STEPS_READ,
    Reading {
        words: &["nvmesgl", "steps", "--trace"],
        ..STEPS_READ
    },
    Reading {
        words: &["nvmesgl", "steps", "--json"],
        ..STEPS_READ
    },
    Reading {
        words: &["nvmesgl", "check"],
        ..STEPS_READ
    },
    JOBS_READ,
    Reading {
        words: &["nvmesgl", "threads", "--json"],
        ..JOBS_READ
    },
    Reading {
        words: &["nvmesgl", "check", "--jobs"],
        ..JOBS_READ
    },
    Reading {
        words: &["nvmesgl", "shell"],
        text: TYPED,
        check: &["nvmesgl", "shell"],
        answered: ANSWERED,
    },
];

/// A script that is cut after a byte is told as it is checked. A reader that fails there is told, whatever it gave, and is not asked again; what was
/// answered by then is a front of the answers, and is answered too where the script ends there. A session ends well wherever it is cut.
#[test]
fn texts_are_cut_after_each_byte(rt: HostRuntime) {
    for row in &READS {
        let text = row.text.as_bytes();
        for cut in 0..=text.len() {
            let front = &text[..cut];
            let wanted = Wanted {
                status: 1,
                told: "script: unreadable\n",
                text: row.answered,
                least: 0,
                most: usize::MAX,
            };
            let found = see(&rt, row.words, front, After::Failure, Limit::NONE, wanted);
            let end = ended(&rt, row.words, front, After::End, Limit::NONE);
            let wanted = Wanted {
                status: end.status,
                told: &end.told,
                text: &end.written,
                least: 0,
                most: usize::MAX,
            };
            see(&rt, row.check, front, After::End, Limit::NONE, wanted);
            let begins = end.written.as_bytes().get(..found.bytes);
            let is_well = row.answered.is_empty() || end.status == 0;
            let asked = cut.saturating_add(1);
            same_at(
                &rt,
                (row.words, cut),
                (begins, is_well, found.asked),
                (row.answered.as_bytes().get(..found.bytes), true, asked),
            );
        }
    }
}

/// Commands that write, and what they read.
const WRITES: [(&[&str], &str); 10] = [
    (&["nvmesgl", "steps"], STEPS),
    (&["nvmesgl", "steps", "--trace"], "ring 1\nfetch 1\n"),
    (&["nvmesgl", "steps", "--json"], "ring 1\nfetch 1\n"),
    (&["nvmesgl", "threads"], JOBS),
    (&["nvmesgl", "threads", "--log-limit", "1"], JOBS),
    (&["nvmesgl", "threads", "--json"], JOBS),
    (&["nvmesgl", "shell"], TYPED),
    (&["nvmesgl", "draw"], "ring 1\n"),
    (
        &["nvmesgl", "test", "-"],
        "ring 1\n> ring ok\n> counts free 12 queue 4 chain 0 data 0\n",
    ),
    (&["nvmesgl", "show", "status", "0:80"], ""),
];

/// Writers that fail at last: by an error or by taking no byte, or that take one byte at a time.
const LIMITS: [Limit; 3] = [
    Limit::NONE,
    Limit {
        refuses: false,
        ..Limit::NONE
    },
    Limit {
        width: 1,
        ..Limit::NONE
    },
];

/// A writer that fails at some write or flush has taken exactly what came before it.
#[test]
fn writers_fail_at_each_call(rt: HostRuntime) {
    for (words, text) in &WRITES {
        for limit in &LIMITS {
            let all = ended(&rt, words, text.as_bytes(), After::End, *limit);
            assert!(rt; all.status == 0);
            for (calls, before) in all.before.iter().enumerate() {
                let limit = Limit { calls, ..*limit };
                let wanted = Wanted {
                    status: 3,
                    told: "output failed\n",
                    text: &all.written,
                    least: *before,
                    most: *before,
                };
                see(&rt, words, text.as_bytes(), After::End, limit, wanted);
            }
        }
    }
}

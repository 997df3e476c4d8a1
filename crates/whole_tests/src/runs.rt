//! Whole runs: what comes each time, however the threads run; how often it is handed on; and readers that fail or have no end.

use crate::door::{After, Limit, Wanted, see};
use crate::expecting::same_at;
use crate::stored::{ANSWERED, ANSWERS, ENDED, JOBS, STEPS, TWO_ENDED, TWO_SUBMITTERS, TYPED};

/// A command, what it reads, how often it is run, and what comes each time.
struct Run {
    words: &'static [&'static str],
    text: &'static str,
    after: After,
    times: u32,
    status: u8,
    told: &'static str,
    written: &'static str,
    /// How many writes and flushes there are, and how many of them are flushes: they hand on what was written.
    calls: usize,
    flushes: u32,
}

/// A run that ends well: each line is written as its step is made, and all is handed on once, after the counts.
const GOOD: Run = Run {
    words: &["nvmesgl", "steps"],
    text: STEPS,
    after: After::End,
    times: 1,
    status: 0,
    told: "",
    written: ANSWERS,
    calls: 15,
    flushes: 1,
};

/// A reader of which a read fails, or that has no end: nothing is written.
const BAD: Run = Run {
    after: After::Failure,
    status: 1,
    told: "script: unreadable\n",
    written: "",
    calls: 0,
    flushes: 0,
    ..GOOD
};

/// The limit of a round's log is a word, and makes as many rounds: after each what was written is handed on, and so are the owners and the counts.
const ROUNDS: Run = Run {
    text: JOBS,
    written: ENDED,
    ..GOOD
};

/// A script without end is too long.
const ENDLESS: Run = Run {
    after: After::More,
    told: "script: too long\na script has 1048576 bytes at most\n",
    ..BAD
};

const RUNS: [Run; 14] = [
    GOOD,
    Run {
        words: &["nvmesgl", "shell"],
        text: TYPED,
        written: ANSWERED,
        calls: 25,
        // Before each line is read, and at the end.
        flushes: 14,
        ..GOOD
    },
    Run {
        words: &["nvmesgl", "threads"],
        text: TWO_SUBMITTERS,
        times: 20,
        written: TWO_ENDED,
        calls: 15,
        flushes: 2,
        ..GOOD
    },
    Run {
        words: &[
            "nvmesgl",
            "threads",
            "--submitters",
            "1",
            "--log-limit",
            "1",
        ],
        calls: 8,
        flushes: 4,
        ..ROUNDS
    },
    Run {
        words: &[
            "nvmesgl",
            "threads",
            "--submitters",
            "1",
            "--log-limit",
            "21",
        ],
        calls: 8,
        flushes: 4,
        ..ROUNDS
    },
    Run {
        words: &[
            "nvmesgl",
            "threads",
            "--submitters",
            "1",
            "--log-limit",
            "22",
        ],
        calls: 7,
        flushes: 3,
        ..ROUNDS
    },
    Run {
        words: &[
            "nvmesgl",
            "threads",
            "--submitters",
            "1",
            "--log-limit",
            "33",
        ],
        calls: 6,
        flushes: 2,
        ..ROUNDS
    },
    Run {
        words: &[
            "nvmesgl",
            "threads",
            "--submitters",
            "1",
            "--log-limit",
            "65536",
        ],
        calls: 6,
        flushes: 2,
        ..ROUNDS
    },
    ENDLESS,
    Run {
        words: &["nvmesgl", "check"],
        ..ENDLESS
    },
    Run {
        words: &["nvmesgl", "threads"],
        ..ENDLESS
    },
    Run {
        words: &["nvmesgl", "draw"],
        ..ENDLESS
    },
    Run {
        words: &["nvmesgl", "test", "-"],
        written: "-: unreadable\n",
        told: "",
        calls: 2,
        flushes: 1,
        ..BAD
    },
    Run {
        words: &["nvmesgl", "explain"],
        told: "input: unreadable\n",
        ..BAD
    },
];

#[test]
fn runs_end(rt: HostRuntime) {
    for run in &RUNS {
        let wanted = Wanted {
            status: run.status,
            told: run.told,
            text: run.written,
            least: run.written.len(),
            most: run.written.len(),
        };
        for _ in 0..run.times {
            let found = see(
                &rt,
                run.words,
                run.text.as_bytes(),
                run.after,
                Limit::NONE,
                wanted,
            );
            let calls = (found.calls, found.flushes);
            same_at(&rt, run.words, calls, (run.calls, run.flushes));
        }
    }
}

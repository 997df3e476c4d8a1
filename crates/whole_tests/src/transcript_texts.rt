//! The first difference of a transcript that is played on a bench. That of `nvmesgl test` names a line where this names none.

use crate::expecting::same_at;
use script_cli::transcripts::{OnBench, play, read_transcript};

/// Transcripts, and the first difference of each.
const DIFFERENCES: [(&str, &str); 6] = [
    ("> counts free 12 queue 4 chain 0 data 0\n", "none"),
    (
        "",
        "line 0: wanted nothing, came counts free 12 queue 4 chain 0 data 0",
    ),
    (
        "# late\nring 1\n> ring refused\nring 1\n> ring\n",
        "line 3: wanted ring refused, came ring ok",
    ),
    (
        "ring 1\nring 1\n> ring ok\n",
        "line 1: wanted nothing, came ring ok",
    ),
    (
        "ring 1\n> ring ok\n> ring ok\nring 1\n",
        "line 3: wanted ring ok, came nothing",
    ),
    (
        "owners\n> 0-0 queue 0 sq\n> 1-1 queue 0 cq\n> 2-2 queue 1 sq\n> 3-3 queue 1 cq\n> 4-15 free\n",
        "line 6: wanted nothing, came counts free 12 queue 4 chain 0 data 0",
    ),
];

#[test]
fn the_first_difference_is_told(rt: HostRuntime) {
    let alloc = rt.alloc();
    for (text, difference) in DIFFERENCES {
        let transcript = read_transcript(alloc, text).expect(&rt, "a transcript");
        let mut bench = OnBench::open(alloc, alloc, transcript.options()).expect(&rt, "a bench");
        let found = play(alloc, &mut bench, &transcript).expect(&rt, "memory");
        let OnBench {
            alloc: _,
            heap: _,
            bench,
        } = bench;
        let _ended = bench.end();
        let mut told = String::new(alloc);
        match found {
            Some(found) => assert!(rt; write!(told, "{found}").is_ok()),
            None => assert!(rt; told.push_str("none").is_ok()),
        }
        same_at(&rt, text, told.as_str(), difference);
    }
}

//! The bytes of an entry, which are read as the entry.

ghost use Rattle.std.specs.Prelude.{◌≡◌, length};
ghost use Rattle.entry_codec.specs.Completion.{completion_bytes, completion_of, FitsCompletion};
ghost use Rattle.entry_codec.specs.Submission.{submission_bytes, submission_of, FitsSubmission};

use entry_codec::{ComEntry, SubEntry};

/// The bytes of a submission entry.
#[tactic(auto, using(entry_codec::proofs::SubmissionLemmas::round_trip))]
pub(crate) fn submission_image(entry: SubEntry) -> [u8; 64]
    requires { FitsSubmission entry }
    ensures bytes { result ≡ submission_bytes entry }
    ensures back { submission_of result ≡ entry }
    ensures count { length result ≡ 64 }
{
    entry.write()
}

/// The bytes of a completion.
#[tactic(auto, using(entry_codec::proofs::CompletionLemmas::round_trip))]
pub(crate) fn completion_image(entry: ComEntry) -> [u8; 16]
    requires { FitsCompletion entry }
    ensures bytes { result ≡ completion_bytes entry }
    ensures back { completion_of result ≡ entry }
    ensures count { length result ≡ 16 }
{
    entry.write()
}

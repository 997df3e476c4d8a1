//! Worked lines of jobs, and of how they ended. Each function computes some.

ghost use Rattle.std.specs.Prelude.{◌≡◌, ℕ, List, ◌<◌, length, true, false, None, Some, Ok, Err, [], ◌∷◌, ◌++◌, codes, replicate};
ghost use Rattle.driver_threads.specs.declared.jobs.JobEnd.TheVariants as end;
ghost use Rattle.driver_threads.specs.declared.jobs.JobRefusal.TheVariants as refusal;
ghost use Rattle.entry_codec.specs.declared.status.TheConstants.Status.{SUCCESS, COMPARE_FAILURE};
ghost use Rattle.io_commands.specs.declared.request.Kind.TheVariants as kind;
ghost use Rattle.io_commands.specs.declared.request.Piece.TheVariants as piece;
ghost use Rattle.io_commands.specs.declared.request.RequestFault.TheVariants as request;
ghost use Rattle.job_cli.specs.JobLines.{job_text};
ghost use Rattle.job_cli.specs.Jobs.{head, job, job_of, job_of_line, jobs_of};
ghost use Rattle.io_commands.specs.declared.block_size.BlockSize.TheVariants as size;
ghost use Rattle.script_cli.specs.Grammar.{request_of, with_options};
ghost use Rattle.script_cli.specs.Worked.{fed, all_fed};
ghost use Rattle.script_cli.specs.declared.fault.LineFault.TheVariants as fault;
ghost use Rattle.script_cli.specs.declared.fault.ScriptFault.TheVariants as script_fault;

/// Some good lines, where there are two submitters.
#[tactic(auto, unfolding(script_cli::specs::Grammar::number_word, script_cli::specs::Grammar::kind_word, script_cli::specs::Grammar::hex_word, script_cli::specs::Grammar::pieces_from, script_cli::specs::Grammar::nothing_more, crate::specs::Jobs::head_words, crate::specs::Jobs::data_words, crate::specs::Jobs::job_words))]
pub fn lines_are_jobs()
    ensures read { job_of_line 2 1 (codes "job 1 1 read 8 1 0+512") ≡ Ok (Some (job 1 (head 1 1 kind.Read 8 1) (piece.Data 0 512 ∷ []) [])) }
    ensures write { job_of_line 2 3 (codes "job 0 1 write 2 1 A2 0+512") ≡ Ok (Some (job 3 (head 0 1 kind.Write 2 1) (piece.Data 0 512 ∷ []) (162 ∷ []))) }
    ensures compare { job_of_line 2 3 (codes "job 0 1 compare 2 1 A2b0 0+256 4096+256") ≡ Ok (Some (job 3 (head 0 1 kind.Compare 2 1) (piece.Data 0 256 ∷ piece.Data 4096 256 ∷ []) (162 ∷ 176 ∷ []))) }
    ensures options { job_of_line 2 1 (codes "job 0 1 write 0 1 A2 0+512 nsid 2 block_size 1024 fua") ≡ Ok (Some (job_of 1 (head 0 1 kind.Write 0 1) (with_options (request_of kind.Write 0 1 (piece.Data 0 512 ∷ [])) 2 size.Bytes1024 true false) (162 ∷ []))) }
    ensures no_piece { job_of_line 2 1 (codes "job 0 1 read 0 1") ≡ Ok (Some (job 1 (head 0 1 kind.Read 0 1) [] [])) }
    ensures comment { job_of_line 2 1 (codes " # job") ≡ Ok None }
    ensures empty { job_of_line 2 1 [] ≡ Ok None }
{}

/// The first fault of a line, where there are two submitters, and once where there are 16.
#[tactic(auto, unfolding(script_cli::specs::Grammar::number_word, script_cli::specs::Grammar::kind_word, script_cli::specs::Grammar::hex_word, script_cli::specs::Grammar::pieces_from, script_cli::specs::Grammar::nothing_more, crate::specs::Jobs::head_words, crate::specs::Jobs::data_words, crate::specs::Jobs::job_words))]
pub fn job_lines_have_first_faults()
    ensures step { job_of_line 2 1 (codes "ring 1") ≡ Err fault.UnknownVerb }
    ensures owners { job_of_line 2 1 (codes "owners") ≡ Err fault.UnknownVerb }
    ensures no_submitter { job_of_line 2 1 (codes "job") ≡ Err fault.MissingWord }
    ensures submitter_out { job_of_line 2 1 (codes "job 2 1 read 0 1") ≡ Err fault.BadNumber }
    ensures submitter_first { job_of_line 2 1 (codes "job 2") ≡ Err fault.BadNumber }
    ensures sixteenth { job_of_line 16 1 (codes "job 15") ≡ Err fault.MissingWord }
    ensures bad_queue { job_of_line 2 1 (codes "job 1 65536 raed") ≡ Err fault.BadNumber }
    ensures bad_kind { job_of_line 2 1 (codes "job 1 1 raed x") ≡ Err fault.BadKind }
    ensures bad_count { job_of_line 2 1 (codes "job 1 1 write 0 x G") ≡ Err fault.BadNumber }
    ensures no_bytes { job_of_line 2 1 (codes "job 1 1 write 0 1") ≡ Err fault.MissingWord }
    ensures piece_for_bytes { job_of_line 2 1 (codes "job 1 1 write 0 1 0+512") ≡ Err fault.BadHex }
    ensures hex_before_piece { job_of_line 2 1 (codes "job 1 1 compare 0 1 ABC 0+") ≡ Err fault.BadHex }
    ensures bytes_of_a_read { job_of_line 2 1 (codes "job 1 1 read 0 1 A2 0+512") ≡ Err fault.BadPiece }
    ensures flags_in_order { job_of_line 2 1 (codes "job 1 1 read 0 1 0+512 lr fua") ≡ Err fault.ExtraWord }
    ensures high { job_of_line 2 1 (codes "raed " ++ 200 ∷ []) ≡ Err fault.NotAscii }
    ensures long_line { (line : List ℕ) → 16384 < length line → job_of_line 2 1 line ≡ Err fault.LongLine }
{}

/// Whole scripts, where there are two submitters.
#[tactic(auto, unfolding(script_cli::specs::Grammar::number_word, script_cli::specs::Grammar::kind_word, script_cli::specs::Grammar::hex_word, script_cli::specs::Grammar::pieces_from, script_cli::specs::Grammar::nothing_more, crate::specs::Jobs::head_words, crate::specs::Jobs::data_words, crate::specs::Jobs::job_words))]
pub fn job_scripts_are_read()
    ensures empty { jobs_of 2 [] ≡ Ok [] }
    ensures numbers { jobs_of 2 (all_fed (codes "# first" ∷ codes "job 1 1 read 0 1" ∷ [] ∷ codes "job 0 1 read 0 1" ∷ [])) ≡ Ok (job 2 (head 1 1 kind.Read 0 1) [] [] ∷ job 4 (head 0 1 kind.Read 0 1) [] [] ∷ []) }
    ensures second_line { jobs_of 2 (all_fed (codes "job 0 1 read 0 1" ∷ codes "job 0" ∷ codes "ring" ∷ [])) ≡ Err (script_fault.Line 2 fault.MissingWord) }
    ensures too_long { (text : List ℕ) → 1048576 < length text → jobs_of 2 text ≡ Err script_fault.TooLong }
{}

/// How jobs ended.
pub fn job_lines_print()
    ensures written { job_text 1 0 kind.Write (end.Done SUCCESS []) ≡ fed (codes "1 seat 0 write status 0:00 -") }
    ensures read { job_text 12 1 kind.Read (end.Done SUCCESS (178 ∷ replicate 511 0)) ≡ fed (codes "12 seat 1 read status 0:00 B2*1,00*511") }
    ensures differs { job_text 3 1 kind.Compare (end.Done COMPARE_FAILURE []) ≡ fed (codes "3 seat 1 compare status 2:85 -") }
    ensures no_queue { job_text 3 1 kind.Read (end.Refused refusal.NoQueue) ≡ fed (codes "3 seat 1 read refused NoQueue") }
    ensures bad { job_text 3 1 kind.Read (end.Refused (refusal.Bad request.LengthMismatch)) ≡ fed (codes "3 seat 1 read refused Bad LengthMismatch") }
    ensures other_blocks { job_text 3 1 kind.Read (end.Refused refusal.OtherBlocks) ≡ fed (codes "3 seat 1 read refused OtherBlocks") }
    ensures too_few { job_text 3 1 kind.Read (end.Refused (refusal.NoPages 13 12)) ≡ fed (codes "3 seat 1 read refused NoPages need 13 pool 12") }
    ensures too_many_bytes { job_text 3 1 kind.Write (end.Refused refusal.WrongLength) ≡ fed (codes "3 seat 1 write refused WrongLength") }
{}

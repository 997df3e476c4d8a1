//! Worked words and lines of scripts. Each function computes some.

ghost use Rattle.std.specs.Prelude.{◌≡◌, ◌<◌, ℕ, List, length, ◌^◌, true, false, Some, None, Ok, Err, [], ◌∷◌, ◌++◌, codes};
ghost use Rattle.io_commands.specs.declared.request.Kind.TheVariants as kind;
ghost use Rattle.io_commands.specs.declared.request.Piece.TheVariants as piece;
ghost use Rattle.io_commands.specs.declared.block_size.BlockSize.TheVariants as size;
ghost use Rattle.script_cli.specs.Grammar.{line_of, request_of, with_options};
ghost use Rattle.script_cli.specs.Lines.{lines, words};
ghost use Rattle.script_cli.specs.Numbers.{number, hex};
ghost use Rattle.script_cli.specs.Scripts.{numbered, numbered_line, script_of, first_fault, steps_of_script};
ghost use Rattle.script_cli.specs.Worked.{all_fed, first_script};
ghost use Rattle.script_cli.specs.declared.fault.LineFault.TheVariants as fault;
ghost use Rattle.script_cli.specs.declared.fault.ScriptFault.TheVariants as script_fault;
ghost use Rattle.script_cli.specs.declared.script.Line.TheVariants as line;
ghost use Rattle.step_core.specs.declared.step.Step.TheVariants as step;

/// Lines end with a line feed, and a carriage return before it goes with it.
pub fn lines_are_cut()
    ensures none { lines [] ≡ [] }
    ensures last_without_feed { lines (codes "ring 1") ≡ codes "ring 1" ∷ [] }
    ensures fed { lines (codes "ring 1" ++ 10 ∷ []) ≡ codes "ring 1" ∷ [] }
    ensures returned { lines (codes "ring 1" ++ 13 ∷ 10 ∷ []) ≡ codes "ring 1" ∷ [] }
    ensures one_is_dropped { lines (13 ∷ 13 ∷ 10 ∷ []) ≡ (13 ∷ []) ∷ [] }
    ensures kept_at_the_end { lines (13 ∷ []) ≡ (13 ∷ []) ∷ [] }
    ensures empty { lines (10 ∷ 10 ∷ []) ≡ [] ∷ [] ∷ [] }
    ensures two { lines (codes "a" ++ 10 ∷ codes "b") ≡ codes "a" ∷ codes "b" ∷ [] }
{}

/// Words stand between blanks.
pub fn words_are_cut()
    ensures none { words (codes "   ") ≡ [] }
    ensures two { words (codes " ring   1 ") ≡ codes "ring" ∷ codes "1" ∷ [] }
    ensures tab { words (codes "a" ++ 9 ∷ codes "b") ≡ codes "a" ∷ codes "b" ∷ [] }
{}

/// Numbers and bytes.
pub fn words_stand_for_values()
    ensures zeros { number (2 ^ 16) (codes "00000000000000000007") ≡ Some 7 }
    ensures too_long { number (2 ^ 16) (codes "000000000000000000007") ≡ None }
    ensures largest { number (2 ^ 16) (codes "65535") ≡ Some 65535 }
    ensures too_large { number (2 ^ 16) (codes "65536") ≡ None }
    ensures plus { number (2 ^ 16) (codes "+5") ≡ None }
    ensures bytes { hex (codes "aBcD") ≡ Some (171 ∷ 205 ∷ []) }
    ensures odd { hex (codes "ABC") ≡ None }
    ensures no_digits { hex [] ≡ None }
{}

/// The first fault of a line, and some lines without one.
#[tactic(auto, unfolding(crate::specs::Grammar::number_word, crate::specs::Grammar::kind_word, crate::specs::Grammar::hex_word, crate::specs::Grammar::sixteen_bytes_word, crate::specs::Grammar::pieces_from, crate::specs::Grammar::nothing_more, crate::specs::Verbs::first_named))]
pub fn lines_have_first_faults()
    ensures unknown_verb { line_of (codes "raed 1") ≡ Err fault.UnknownVerb }
    ensures missing_word { line_of (codes "ring") ≡ Err fault.MissingWord }
    ensures bad_number { line_of (codes "ring 70000") ≡ Err fault.BadNumber }
    ensures extra_word { line_of (codes "ring 1 2") ≡ Err fault.ExtraWord }
    ensures bad_kind { line_of (codes "reserve 1 rea") ≡ Err fault.BadKind }
    ensures bad_piece { line_of (codes "reserve 1 read 0 1 0+") ≡ Err fault.BadPiece }
    ensures no_namespace { line_of (codes "reserve 1 read 0 1 0+512 nsid") ≡ Err fault.MissingWord }
    ensures namespace_0 { line_of (codes "reserve 1 read 0 1 0+512 nsid 0") ≡ Err fault.BadNumber }
    ensures namespace_too_large { line_of (codes "reserve 1 read 0 1 0+512 nsid 4294967296") ≡ Err fault.BadNumber }
    ensures no_block_size { line_of (codes "reserve 1 read 0 1 0+512 block_size") ≡ Err fault.MissingWord }
    ensures no_such_block_size { line_of (codes "reserve 1 read 0 1 0+512 block_size 520") ≡ Err fault.BadNumber }
    ensures no_vector { line_of (codes "create_cq 1 vector") ≡ Err fault.MissingWord }
    ensures vector_too_large { line_of (codes "create_cq 1 vector 65536") ≡ Err fault.BadNumber }
    ensures odd_hex { line_of (codes "fill 1 0 ABC") ≡ Err fault.BadHex }
    ensures short_forge { line_of (codes "forge 1 0 00") ≡ Err fault.BadHex }
    ensures jobs { line_of (codes "job 0 1 read 0 1 0+512") ≡ Err fault.UnknownVerb }
    ensures no_piece { line_of (codes "reserve 1 read 0 1") ≡ Ok (line.Step (step.Reserve 1 (request_of kind.Read 0 1 []))) }
    ensures comment { line_of (codes "  # ring") ≡ Ok line.Nothing }
    ensures answer { line_of (codes " > ring ok") ≡ Ok line.Nothing }
    ensures empty_answer { line_of (codes ">") ≡ Ok line.Nothing }
    ensures no_answer { line_of (codes ">ring ok") ≡ Err fault.UnknownVerb }
    ensures empty { line_of [] ≡ Ok line.Nothing }
    ensures owners { line_of (codes "owners") ≡ Ok line.Owners }
{}

/// The order of the faults of a line: the first that applies.
#[tactic(auto, unfolding(crate::specs::Grammar::number_word, crate::specs::Grammar::kind_word, crate::specs::Grammar::hex_word, crate::specs::Grammar::sixteen_bytes_word, crate::specs::Grammar::pieces_from, crate::specs::Grammar::nothing_more, crate::specs::Verbs::first_named))]
pub fn faults_have_an_order()
    ensures high_before_verb { line_of (codes "raed " ++ 200 ∷ []) ≡ Err fault.NotAscii }
    ensures high_in_comment { line_of (codes "# " ++ 200 ∷ []) ≡ Err fault.NotAscii }
    ensures verb_before_words { line_of (codes "raed") ≡ Err fault.UnknownVerb }
    ensures number_before_missing_word { line_of (codes "build x") ≡ Err fault.BadNumber }
    ensures kind_before_missing_word { line_of (codes "reserve 1 rea") ≡ Err fault.BadKind }
    ensures number_before_kind { line_of (codes "reserve x rea 0 1") ≡ Err fault.BadNumber }
    ensures number_before_extra_word { line_of (codes "ring x 2") ≡ Err fault.BadNumber }
    ensures number_before_hex { line_of (codes "fill 1 x ABC") ≡ Err fault.BadNumber }
    ensures hex_before_extra_word { line_of (codes "fill 1 0 ABC 2") ≡ Err fault.BadHex }
    ensures number_before_piece { line_of (codes "reserve 1 read x 1 0+") ≡ Err fault.BadNumber }
    ensures first_piece { line_of (codes "reserve 1 read 0 1 0+512 512") ≡ Err fault.BadPiece }
    ensures flags_in_order { line_of (codes "reserve 1 read 0 1 0+512 lr fua") ≡ Err fault.ExtraWord }
    ensures flag_twice { line_of (codes "reserve 1 read 0 1 0+512 fua fua") ≡ Err fault.ExtraWord }
    ensures namespace_before_flags { line_of (codes "reserve 1 read 0 1 0+512 fua nsid 2") ≡ Err fault.ExtraWord }
    ensures namespace_before_block_size { line_of (codes "reserve 1 read 0 1 0+512 block_size 512 nsid 2") ≡ Err fault.ExtraWord }
    ensures piece_behind_flag { line_of (codes "reserve 1 read 0 1 0+512 fua 0+512") ≡ Err fault.ExtraWord }
    ensures unnamed_vector { line_of (codes "create_cq 1 3") ≡ Err fault.ExtraWord }
    ensures vector_twice { line_of (codes "create_cq 1 vector 3 vector 3") ≡ Err fault.ExtraWord }
    ensures queue_before_vector { line_of (codes "create_cq x vector y") ≡ Err fault.BadNumber }
    ensures vector_of_submissions { line_of (codes "create_sq 1 vector 3") ≡ Err fault.ExtraWord }
    ensures return_in_word { line_of (codes "ring 1" ++ 13 ∷ []) ≡ Err fault.BadNumber }
    ensures lone_return { line_of (13 ∷ []) ≡ Err fault.UnknownVerb }
{}

/// What comes before the faults of single words.
pub fn long_texts_come_first()
    ensures long_line { (line : List ℕ) → 16384 < length line → line_of line ≡ Err fault.LongLine }
    ensures too_many_lines { (number : ℕ) (line : List ℕ) → 65536 < number → numbered_line number line ≡ Err fault.TooManyLines }
    ensures too_long { (text : List ℕ) → 1048576 < length text → first_fault text ≡ Some script_fault.TooLong }
{}

/// Some good lines.
#[tactic(auto, unfolding(crate::specs::Grammar::number_word, crate::specs::Grammar::kind_word, crate::specs::Grammar::hex_word, crate::specs::Grammar::sixteen_bytes_word, crate::specs::Grammar::pieces_from, crate::specs::Grammar::nothing_more, crate::specs::Verbs::first_named))]
pub fn lines_are_steps()
    ensures pieces { line_of (codes "reserve 1 read 0 2 0+512 x512") ≡ Ok (line.Step (step.Reserve 1 (request_of kind.Read 0 2 (piece.Data 0 512 ∷ piece.Bucket 512 ∷ [])))) }
    ensures late_write { line_of (codes "reserve 1 write 5 1 0+512") ≡ Ok (line.Step (step.Reserve 1 (request_of kind.Write 5 1 (piece.Data 0 512 ∷ [])))) }
    ensures at_the_end { line_of (codes "reserve 1 read 63 2 0+1024") ≡ Ok (line.Step (step.Reserve 1 (request_of kind.Read 63 2 (piece.Data 0 1024 ∷ [])))) }
    ensures all_options { line_of (codes "reserve 1 read 0 1 0+512 nsid 2 block_size 4096 fua lr") ≡ Ok (line.Step (step.Reserve 1 (with_options (request_of kind.Read 0 1 (piece.Data 0 512 ∷ [])) 2 size.Bytes4096 true true))) }
    ensures block_size { line_of (codes "reserve 1 read 0 1 0+512 block_size 512") ≡ Ok (line.Step (step.Reserve 1 (request_of kind.Read 0 1 (piece.Data 0 512 ∷ [])))) }
    ensures largest_namespace { line_of (codes "reserve 1 read 0 1 0+512 nsid 4294967295") ≡ Ok (line.Step (step.Reserve 1 (with_options (request_of kind.Read 0 1 (piece.Data 0 512 ∷ [])) 4294967295 size.Bytes512 false false))) }
    ensures force_unit_access { line_of (codes "reserve 1 read 0 1 0+512 fua") ≡ Ok (line.Step (step.Reserve 1 (with_options (request_of kind.Read 0 1 (piece.Data 0 512 ∷ [])) 1 size.Bytes512 true false))) }
    ensures limited_retry { line_of (codes "reserve 1 read 0 1 lr") ≡ Ok (line.Step (step.Reserve 1 (with_options (request_of kind.Read 0 1 []) 1 size.Bytes512 false true))) }
    ensures fill { line_of (codes "fill 1 0 ABCD") ≡ Ok (line.Step (step.Fill 1 0 (171 ∷ 205 ∷ []))) }
    ensures abort { line_of (codes "abort 1 0") ≡ Ok (line.Step (step.Abort 1 0)) }
    ensures delete_cq { line_of (codes "delete_cq 1") ≡ Ok (line.Step (step.DeleteCq 1)) }
    ensures create_cq { line_of (codes "create_cq 1") ≡ Ok (line.Step (step.CreateCq 1 None)) }
    ensures create_cq_with_interrupts { line_of (codes "create_cq 1 vector 3") ≡ Ok (line.Step (step.CreateCq 1 (Some 3))) }
    ensures least_vector { line_of (codes "create_cq 1 vector 0") ≡ Ok (line.Step (step.CreateCq 1 (Some 0))) }
    ensures largest_vector { line_of (codes "create_cq 1 vector 65535") ≡ Ok (line.Step (step.CreateCq 1 (Some 65535))) }
    ensures create_sq { line_of (codes "create_sq 1") ≡ Ok (line.Step (step.CreateSq 1)) }
    ensures retire { line_of (codes "retire 1") ≡ Ok (line.Step (step.Retire 1)) }
    ensures reset { line_of (codes "reset") ≡ Ok (line.Step step.Reset) }
    ensures forge { line_of (codes "forge 1 0 00000000000000000000010003000100") ≡ Ok (line.Step (step.Forge 1 0 (0 ∷ 0 ∷ 0 ∷ 0 ∷ 0 ∷ 0 ∷ 0 ∷ 0 ∷ 0 ∷ 0 ∷ 1 ∷ 0 ∷ 3 ∷ 0 ∷ 1 ∷ 0 ∷ []))) }
{}

/// The first script, and the places of faults.
#[tactic(auto, unfolding(crate::specs::Grammar::number_word, crate::specs::Grammar::kind_word, crate::specs::Grammar::hex_word, crate::specs::Grammar::sixteen_bytes_word, crate::specs::Grammar::pieces_from, crate::specs::Grammar::nothing_more, crate::specs::Verbs::first_named))]
pub fn scripts_are_read()
    ensures first { steps_of_script first_script ≡ step.Reserve 1 (request_of kind.Read 0 1 (piece.Data 0 512 ∷ [])) ∷ step.Build 1 0 ∷ step.Submit 1 0 ∷ step.Ring 1 ∷ step.Fetch 1 ∷ step.Walk 1 0 ∷ step.Walk 1 0 ∷ step.Complete 1 0 ∷ step.Reap 1 ∷ step.Collect 1 0 ∷ step.Gather 1 0 ∷ step.Release 1 0 ∷ [] }
    ensures no_fault { first_fault first_script ≡ None }
    ensures numbers { script_of (all_fed (codes "# first" ∷ codes "ring 1" ∷ [] ∷ codes "owners" ∷ [])) ≡ Ok (numbered 2 (line.Step (step.Ring 1)) ∷ numbered 4 line.Owners ∷ []) }
    ensures misspelt { first_fault (codes "raed 1") ≡ Some (script_fault.Line 1 fault.UnknownVerb) }
    ensures second_line { first_fault (all_fed (codes "ring 1" ∷ codes "ring" ∷ codes "raed" ∷ [])) ≡ Some (script_fault.Line 2 fault.MissingWord) }
    ensures empty { script_of [] ≡ Ok [] }
{}

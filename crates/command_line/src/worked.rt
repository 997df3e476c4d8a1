//! Worked command lines. Each function computes some.

ghost use Rattle.std.specs.Prelude.{◌≡◌, ℕ, List, None, Some, [], ◌∷◌, ◌++◌, false, true, codes};
ghost use Rattle.command_line.specs.Asked.{asked, check, check_jobs, draw, explain, grammar, load, shell, show, steps, test, thread_objects, threads, traced};
ghost use Rattle.command_line.specs.declared.serving.Serving.TheVariants.{Controller, Ringer};
ghost use Rattle.command_line.specs.Worked.{alone, check_with, extreme, extreme_words, load_with, mixed, mixed_words, one_file, steps_with, test_with, threads_with, usual, usual_load};
ghost use Rattle.script_cli.specs.declared.workload.OutputFormat.TheVariants.{Json};
ghost use Rattle.script_cli.specs.declared.workload.Pattern.TheVariants.{Rw};

/// Each option is what its words say, and its usual value where there are none.
#[tactic(auto, unfolding(clap::proofs::OnLiterals::clap_on_literals))]
pub fn options_are_taken()
    ensures usual_steps { asked (steps_with []) ≡ Some (steps usual) }
    ensures usual_threads { asked (threads_with []) ≡ Some (threads usual (alone 2) Ringer) }
    ensures extreme_steps { asked (steps_with extreme_words) ≡ Some (steps extreme) }
    ensures extreme_threads { asked (threads_with (codes "--submitters" ∷ codes "16" ∷ extreme_words)) ≡ Some (threads extreme (alone 16) Ringer) }
    ensures mixed_steps { asked (steps_with mixed_words) ≡ Some (steps mixed) }
    ensures mixed_threads { asked (threads_with (mixed_words ++ codes "--submitters=1" ∷ [])) ≡ Some (threads mixed (alone 1) Ringer) }
{}

/// A script is a word that belongs to no option, before, after or between them.
#[tactic(auto, unfolding(clap::proofs::OnLiterals::clap_on_literals))]
pub fn scripts_are_words()
    ensures alone { asked (steps_with (codes "read.script" ∷ [])) ≡ Some (steps (record usual { script = Some (codes "read.script") })) }
    ensures dash { asked (threads_with (codes "-" ∷ [])) ≡ Some (threads (record usual { script = Some (codes "-") }) (alone 2) Ringer) }
    ensures before { asked (steps_with (codes "a" ∷ codes "--blocks=64" ∷ [])) ≡ Some (steps (record usual { script = Some (codes "a") })) }
    ensures behind { asked (steps_with (codes "--blocks" ∷ codes "64" ∷ codes "--" ∷ codes "--a" ∷ [])) ≡ Some (steps (record usual { script = Some (codes "--a") })) }
{}

/// The image of `steps` is saved into a file, and that of no other command.
#[tactic(auto, unfolding(clap::proofs::OnLiterals::clap_on_literals))]
pub fn images_are_saved()
    ensures file { asked (steps_with (codes "--save" ∷ codes "disk" ∷ [])) ≡ Some (steps (record usual { save = Some (codes "disk") })) }
    ensures image { asked (steps_with (codes "a" ∷ codes "--save=disk" ∷ codes "--image=disk" ∷ [])) ≡ Some (steps (record usual { image = Some (codes "disk"); script = Some (codes "a"); save = Some (codes "disk") })) }
    ensures no_file { asked (steps_with (codes "--save" ∷ [])) ≡ None }
    ensures threads { asked (threads_with (codes "--save" ∷ codes "disk" ∷ [])) ≡ None }
{}

/// Steps tell what they moved where that is asked for.
#[tactic(auto, unfolding(clap::proofs::OnLiterals::clap_on_literals))]
pub fn steps_are_traced()
    ensures steps { asked (steps_with (codes "--trace" ∷ [])) ≡ Some (traced usual false) }
    ensures saved { asked (steps_with (codes "a" ∷ codes "--trace" ∷ codes "--save=disk" ∷ [])) ≡ Some (traced (record usual { script = Some (codes "a"); save = Some (codes "disk") }) false) }
    ensures objects { asked (steps_with (codes "--trace" ∷ codes "--json" ∷ [])) ≡ Some (traced usual true) }
    ensures shell { asked (codes "nvmesgl" ∷ codes "shell" ∷ codes "--trace" ∷ []) ≡ Some (shell usual true) }
    ensures threads { asked (threads_with (codes "--trace" ∷ [])) ≡ None }
{}

/// A refusal is a fault where that is asked for.
#[tactic(auto, unfolding(clap::proofs::OnLiterals::clap_on_literals))]
pub fn runs_are_strict()
    ensures steps { asked (steps_with (codes "--strict" ∷ [])) ≡ Some (steps (record usual { strict = true })) }
    ensures threads { asked (threads_with (codes "--strict" ∷ [])) ≡ Some (threads (record usual { strict = true }) (alone 2) Ringer) }
    ensures draw { asked (codes "nvmesgl" ∷ codes "draw" ∷ codes "--strict" ∷ []) ≡ None }
{}

/// What `check` and `grammar` ask for.
#[tactic(auto, unfolding(clap::proofs::OnLiterals::clap_on_literals))]
pub fn nothing_is_run()
    ensures steps { asked (check_with []) ≡ Some (check None) }
    ensures file { asked (check_with (codes "a" ∷ [])) ≡ Some (check (Some (codes "a"))) }
    ensures jobs { asked (check_with (codes "--jobs" ∷ [])) ≡ Some (check_jobs None 2) }
    ensures more_jobs { asked (check_with (codes "--submitters=16" ∷ codes "a" ∷ codes "--jobs" ∷ [])) ≡ Some (check_jobs (Some (codes "a")) 16) }
    ensures submitters_alone { asked (check_with (codes "--submitters" ∷ codes "0" ∷ [])) ≡ Some (check None) }
    ensures no_submitters { asked (check_with (codes "--jobs" ∷ codes "--submitters" ∷ codes "0" ∷ [])) ≡ None }
    ensures many_submitters { asked (check_with (codes "--jobs" ∷ codes "--submitters" ∷ codes "17" ∷ [])) ≡ None }
    ensures no_pages { asked (check_with (codes "--pages" ∷ codes "8" ∷ [])) ≡ None }
    ensures grammar { asked (codes "nvmesgl" ∷ codes "grammar" ∷ []) ≡ Some grammar }
    ensures no_word { asked (codes "nvmesgl" ∷ codes "grammar" ∷ codes "ring" ∷ []) ≡ None }
{}

/// What `test`, `shell` and `draw` ask for.
#[tactic(auto, unfolding(clap::proofs::OnLiterals::clap_on_literals))]
pub fn files_are_tested()
    ensures one { asked (test_with (codes "a" ∷ [])) ≡ Some (test one_file) }
    ensures more { asked (test_with (codes "a" ∷ codes "--update" ∷ codes "b" ∷ [])) ≡ Some (test (record one_file { updates = true; files = codes "a" ∷ codes "b" ∷ [] })) }
    ensures blocks { asked (test_with (codes "--blocks" ∷ codes "3" ∷ codes "a" ∷ [])) ≡ Some (test (record one_file { zeros = 3 })) }
    ensures no_file { asked (test_with []) ≡ None }
    ensures shell { asked (codes "nvmesgl" ∷ codes "shell" ∷ []) ≡ Some (shell usual false) }
    ensures mixed_shell { asked (codes "nvmesgl" ∷ codes "shell" ∷ mixed_words) ≡ Some (shell mixed false) }
    ensures draw { asked (codes "nvmesgl" ∷ codes "draw" ∷ []) ≡ Some (draw usual) }
    ensures mixed_draw { asked (codes "nvmesgl" ∷ codes "draw" ∷ mixed_words) ≡ Some (draw mixed) }
{}

/// What `explain` and `show` ask for.
#[tactic(auto, unfolding(clap::proofs::OnLiterals::clap_on_literals))]
pub fn bytes_are_looked_at()
    ensures explain { asked (codes "nvmesgl" ∷ codes "explain" ∷ []) ≡ Some (explain None false) }
    ensures file { asked (codes "nvmesgl" ∷ codes "explain" ∷ codes "a" ∷ []) ≡ Some (explain (Some (codes "a")) false) }
    ensures json { asked (codes "nvmesgl" ∷ codes "explain" ∷ codes "--json" ∷ codes "a" ∷ []) ≡ Some (explain (Some (codes "a")) true) }
    ensures show { asked (codes "nvmesgl" ∷ codes "show" ∷ codes "sgl" ∷ codes "00*16" ∷ []) ≡ Some (show (codes "sgl" ∷ codes "00*16" ∷ []) false) }
    ensures shown_json { asked (codes "nvmesgl" ∷ codes "show" ∷ codes "--json" ∷ codes "sgl" ∷ []) ≡ Some (show (codes "sgl" ∷ []) true) }
    ensures no_word { asked (codes "nvmesgl" ∷ codes "show" ∷ []) ≡ None }
{}

/// Words that ask for no command.
#[tactic(auto, unfolding(clap::proofs::OnLiterals::clap_on_literals))]
pub fn other_words_are_refused()
    ensures no_command { asked (codes "nvmesgl" ∷ []) ≡ None }
    ensures other_command { asked (codes "nvmesgl" ∷ codes "step" ∷ []) ≡ None }
    ensures help { asked (codes "nvmesgl" ∷ codes "--help" ∷ []) ≡ None }
    ensures help_of_steps { asked (steps_with (codes "--help" ∷ [])) ≡ None }
    ensures unknown { asked (steps_with (codes "--page" ∷ codes "8" ∷ [])) ≡ None }
    ensures version { asked (codes "nvmesgl" ∷ codes "--version" ∷ []) ≡ None }
    ensures two_scripts { asked (steps_with (codes "8" ∷ codes "9" ∷ [])) ≡ None }
    ensures twice { asked (steps_with (codes "--pages" ∷ codes "8" ∷ codes "--pages" ∷ codes "8" ∷ [])) ≡ None }
    ensures no_value { asked (steps_with (codes "--pages" ∷ [])) ≡ None }
    ensures submitters_of_steps { asked (steps_with (codes "--submitters" ∷ codes "2" ∷ [])) ≡ None }
{}

/// Numbers that are refused, and the largest that is taken.
#[tactic(auto, unfolding(clap::proofs::OnLiterals::clap_on_literals))]
pub fn numbers_are_read()
    ensures word { asked (steps_with (codes "--queues" ∷ codes "two" ∷ [])) ≡ None }
    ensures blank { asked (steps_with (codes "--queues" ∷ codes " 2" ∷ [])) ≡ None }
    ensures minus_zero { asked (steps_with (codes "--queues=-0" ∷ [])) ≡ Some (steps (record usual { config = record usual.config { queues = 0 } })) }
    ensures minus { asked (steps_with (codes "--queues=-1" ∷ [])) ≡ None }
    ensures hexadecimal { asked (steps_with (codes "--queues" ∷ codes "0x2" ∷ [])) ≡ None }
    ensures too_large { asked (steps_with (codes "--queues" ∷ codes "4294967296" ∷ [])) ≡ None }
    ensures largest { asked (steps_with (codes "--blocks" ∷ codes "4294967295" ∷ [])) ≡ Some (steps (record usual { blocks = 4294967295 })) }
    ensures deep { asked (threads_with (codes "--depth=256" ∷ codes "--log-limit" ∷ codes "1" ∷ [])) ≡ Some (threads usual (record { submitters = 2; depth = 256; log_limit = Some 1 }) Ringer) }
    ensures no_depth { asked (threads_with (codes "--depth" ∷ codes "0" ∷ [])) ≡ None }
    ensures too_deep { asked (threads_with (codes "--depth" ∷ codes "257" ∷ [])) ≡ None }
    ensures no_entries { asked (threads_with (codes "--log-limit" ∷ codes "0" ∷ [])) ≡ None }
    ensures no_submitters { asked (threads_with (codes "--submitters" ∷ codes "0" ∷ [])) ≡ None }
    ensures many_submitters { asked (threads_with (codes "--submitters" ∷ codes "17" ∷ [])) ≡ None }
{}

/// Whoever rings serves, or the controller's thread where that is asked for.
#[tactic(auto, unfolding(clap::proofs::OnLiterals::clap_on_literals))]
pub fn servers_are_named()
    ensures ringer { asked (threads_with (codes "--serve=ringer" ∷ [])) ≡ Some (threads usual (alone 2) Ringer) }
    ensures controller { asked (threads_with (codes "--serve" ∷ codes "controller" ∷ [])) ≡ Some (threads usual (alone 2) Controller) }
    ensures objects { asked (threads_with (codes "--json" ∷ [])) ≡ Some (thread_objects usual (alone 2) Ringer) }
    ensures nobody { asked (threads_with (codes "--serve" ∷ codes "poller" ∷ [])) ≡ None }
    ensures no_word { asked (threads_with (codes "--serve" ∷ [])) ≡ None }
    ensures steps { asked (steps_with (codes "--serve=ringer" ∷ [])) ≡ None }
{}

/// What `load` asks for: sizes are blocks, or bytes with a unit, and times seconds, or a number with a unit.
#[tactic(auto, unfolding(clap::proofs::OnLiterals::clap_on_literals))]
pub fn loads_are_read()
    ensures usual { asked (load_with []) ≡ Some (load usual usual_load Ringer) }
    ensures units { asked (load_with (codes "--bs" ∷ codes "4k" ∷ codes "--size=64K" ∷ codes "--runtime" ∷ codes "10m" ∷ [])) ≡ Some (load usual (record usual_load { command_blocks = 8; size = Some 128; count = None; runtime = Some 600 }) Ringer) }
    ensures mixed { asked (load_with (codes "--rw=readwrite" ∷ codes "--rwmixread" ∷ codes "70" ∷ codes "--bs=256" ∷ [])) ≡ Some (load usual (record usual_load { pattern = Rw; reads = 70; command_blocks = 256 }) Ringer) }
    ensures reported { asked (load_with (codes "--stats=s" ∷ codes "--status-interval" ∷ codes "5s" ∷ codes "--output-format=json" ∷ [])) ≡ Some (load usual (record usual_load { stats = Some (codes "s"); interval = Some 5; format = Json }) Ringer) }
    ensures no_file { asked (load_with (codes "--status-interval" ∷ codes "5" ∷ [])) ≡ None }
    ensures no_time { asked (load_with (codes "--stats=s" ∷ codes "--status-interval=0" ∷ [])) ≡ None }
    ensures half_a_block { asked (load_with (codes "--bs=256b" ∷ [])) ≡ None }
    ensures many_blocks { asked (load_with (codes "--bs=1m" ∷ [])) ≡ None }
    ensures no_block { asked (load_with (codes "--size=0" ∷ [])) ≡ None }
    ensures many_reads { asked (load_with (codes "--rwmixread=101" ∷ [])) ≡ None }
    ensures no_format { asked (load_with (codes "--output-format=xml" ∷ [])) ≡ None }
{}

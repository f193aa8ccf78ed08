// Laws of what the program comes to: where nothing happened to its outside that ends a run early, the run is made to its end; and a trace that is replayed is
// made again. Each contract is proved though its body is empty.
ghost use Rattle.std.specs.Prelude.{◌≡◌, ◌≢◌, ◌⊎◌, ℕ, ◌≤◌, ◌++◌, List, [], ◌∷◌, Option, Some, None, IsTrue};
ghost use Rattle.slirp_settings.specs.Addresses.{Config};
ghost use Rattle.slirp_settings.specs.declared.Forward.{Forward};
ghost use Rattle.replay.specs.Text.{text};
ghost use Rattle.spec_trace.specs.Moments.{waits};
ghost use Rattle.spec_trace.specs.Shape.{phase};
ghost use Rattle.serve_loop.specs.Ends.{end_of};
ghost use Rattle.serve_loop.specs.declared.service.End.TheVariants.{Done as AtEnd};
ghost use Rattle.spec_run.specs.Laws.{Finished, Lawful, May};
ghost use Rattle.slirp_app.specs.Causes.{RanOn};
ghost use Rattle.slirp_app.specs.Doing.{ReplaysFile, ServesLink};
ghost use Rattle.app_edges.specs.Fetching.{IsWhole, octets_read};
ghost use Rattle.app_edges.specs.Texts.{end_line};
ghost use Rattle.slirp_app.specs.Serving.{ComesTo};
ghost use Rattle.app_edges.specs.Statuses.{code_of, is_run};
ghost use Rattle.slirp_app.specs.Statuses.{outcome_of};
ghost use Rattle.app_edges.specs.Texts.{Got};
ghost use Rattle.slirp_app.specs.Untroubled.{CanBeFollowed, IsUntroubledBehind, SaysUntroubled, Untroubled};
ghost use Rattle.app_edges.specs.declared.outcome.Outcome.{Outcome};
ghost use Rattle.app_edges.specs.declared.outcome.Outcome.TheVariants.{Done};
ghost use Rattle.command_words.specs.declared.Tap.{Tap};
ghost use Rattle.command_words.specs.declared.Tap.TheVariants.{Off, Record};
ghost use Rattle.world_face.specs.Journal.{AreAllowed, Call, Entry, Place, call_of};
ghost use Rattle.world_face.specs.Puts.{added};
ghost use Rattle.world_face.specs.Tells.{Makes, Telling, Told};

/// A run is untroubled where its link carried whole frames until it ended, no call on the link and no wait failed, the host
/// opened each port that is given to a guest, and the control's, and fewer waits were made than the settings allow. Where such a run is finished, its
/// link ended or a wait was told to stop: it is done.
pub fn an_untroubled_run_is_made_to_its_end()
    ensures run { (config : Config) (journal : List Entry) → AreAllowed journal → Lawful config journal → Finished config journal
        → Untroubled config journal → end_of config (phase config journal) ≡ AtEnd }
    // So with `serve`, behind the opening of the link, and with a control.
    ensures served { (config : Config) (outcome : Outcome) (run : List Entry) → ComesTo config outcome run → AreAllowed run → Untroubled config run
        → outcome ≡ Done }
{}

/// A link that is served without trouble is served to its end: `serve --link AT` comes to 0; or, where the run is put, to 12 if a put failed.
pub fn a_link_that_is_served_untroubled_is_served_to_its_end()
    ensures plain { (words : List (List ℕ)) (forwards : List Forward) (config : Config) (at : Place) (status : ℕ) (live live_new : Telling)
        (old new said said_new : Option (List ℕ)) (told told_new : ℕ)
        → ServesLink config at Off status live live_new old new (Got words forwards said said_new told told_new)
        → Makes live live_new (λ made. IsUntroubledBehind config at made → status ≡ 0) }
    ensures tapped { (words : List (List ℕ)) (forwards : List Forward) (config : Config) (at : Place) (tap : Tap) (status : ℕ) (live live_new : Telling)
        (old new said said_new : Option (List ℕ)) (told told_new : ℕ)
        → ServesLink config at tap status live live_new old new (Got words forwards said said_new told told_new)
        → Makes live live_new (λ made. IsUntroubledBehind config at made → (status ≡ 0) ⊎ (status ≡ 12)) }
{}

/// A schedule that can be followed is followed to its end: `replay FILE` comes to 0.
pub fn a_schedule_that_can_be_followed_is_followed_to_its_end()
    // The status of a run that was made and didn't diverge is 0 where its trace is untroubled.
    ensures run { (words : List (List ℕ)) (forwards : List Forward) (file : List ℕ) (config : Config) (status : ℕ) (world world_new : Telling) (old new err err_new : Option (List ℕ))
        (faults faults_new : ℕ)
        → ReplaysFile file config status world world_new old new (Got words forwards err err_new faults faults_new)
        → IsTrue (is_run status) → status ≢ 5 → RanOn config world world_new status old new (λ schedule journal. Untroubled config journal → status ≡ 0) }
    // So where the words, FILE and each line of it were read and nothing diverged, which 1 to 5 tell, and FILE can be followed, it is 0; unless a put failed, with 12, or there was no memory, with 13.
    ensures file { (words : List (List ℕ)) (forwards : List Forward) (file : List ℕ) (config : Config) (status : ℕ) (world world_new : Telling) (old new err err_new : Option (List ℕ))
        (faults faults_new : ℕ)
        → ReplaysFile file config status world world_new old new (Got words forwards err err_new faults faults_new)
        → ¬ ((1 ≤ status) × (status ≤ 5)) → ((made : List Entry) → Told world world_new made → IsWhole made → CanBeFollowed config (octets_read made))
        → (status ≡ 0) ⊎ (status ≡ 12) ⊎ (status ≡ 13) }
    // A schedule can be followed where its lines are the trace of an untroubled run, whether the run gets to the last of them or ends before.
    ensures lines { (config : Config) (schedule : List ℕ) → SaysUntroubled config schedule → CanBeFollowed config schedule }
{}

/// A trace, replayed with the same settings, prints itself where nothing diverged. The settings have no control.
pub fn a_record_replays_to_itself()
    // FILE has the lines of a lawful trace: a replay with its settings that made a run, and neither diverged (5) nor spent its turns (10), made just its calls
    // with their answers; so the trace is that of a finished run, and the status is that of the end which it tells.
    ensures itself { (words : List (List ℕ)) (forwards : List Forward) (file : List ℕ) (config : Config) (status : ℕ) (world world_new : Telling) (old new err err_new : Option (List ℕ))
        (faults faults_new : ℕ)
        (run : List Entry)
        → config.control ≡ None → ReplaysFile file config status world world_new old new (Got words forwards err err_new faults faults_new) → AreAllowed run → Lawful config run
        → IsTrue (is_run status) → status ≢ 5 → status ≢ 10 → Makes world world_new (λ made. octets_read made ≡ text run
        → (new ≡ added (text run ++ end_line status) old) × Finished config run × (status ≡ code_of (outcome_of (end_of config (phase config run))))) }
    // One that spent its turns made the first calls of the trace, those of a finished run with as many waits, and the trace has no wait after them.
    ensures spent { (words : List (List ℕ)) (forwards : List Forward) (file : List ℕ) (config : Config) (status : ℕ) (world world_new : Telling) (old new err err_new : Option (List ℕ))
        (faults faults_new : ℕ)
        (run : List Entry)
        → config.control ≡ None → ReplaysFile file config status world world_new old new (Got words forwards err err_new faults faults_new) → AreAllowed run → Lawful config run
        → status ≡ 10 → Makes world world_new (λ made. octets_read made ≡ text run → (rest : List Entry) × (front : List Entry) × (run ≡ rest ++ front)
        × (new ≡ added (text front ++ end_line 10) old) × Finished config front × (waits front ≡ config.turns) × (waits run ≡ config.turns)) }
    // One that diverged (5) made the first calls of the trace, and ceased at a lawful call that isn't the trace's next; of a finished trace whose turns weren't spent.
    ensures diverged { (words : List (List ℕ)) (forwards : List Forward) (file : List ℕ) (config : Config) (status : ℕ) (world world_new : Telling) (old new err err_new : Option (List ℕ))
        (faults faults_new : ℕ) (run : List Entry)
        → config.control ≡ None → ReplaysFile file config status world world_new old new (Got words forwards err err_new faults faults_new) → AreAllowed run → Lawful config run → Finished config run
        → code_of (outcome_of (end_of config (phase config run))) ≢ 10
        → status ≡ 5 → Makes world world_new (λ made. octets_read made ≡ text run → (rest : List Entry) × (entry : Entry) × (front : List Entry)
        × (call : Call) × (run ≡ rest ++ (entry ∷ front))
        × (new ≡ added (text front ++ end_line 5) old) × May config front call × (call ≢ call_of entry)) }
    // So of all that `serve --record` put where the output held nothing and took it: such a replay prints it again, and comes to the same status.
    ensures recorded { (asked words : List (List ℕ)) (led forwards : List Forward) (config : Config) (at : Place) (status again : ℕ) (live live_new world world_new : Telling) (octets file : List ℕ)
        (old new said said_new err err_new : Option (List ℕ)) (told told_new faults faults_new : ℕ)
        → config.control ≡ None → ServesLink config at Record status live live_new (Some []) (Some octets) (Got asked led said said_new told told_new) → status ≢ 12
        → ReplaysFile file config again world world_new old new (Got words forwards err err_new faults faults_new) → IsTrue (is_run again) → again ≢ 5 → again ≢ 10
        → Makes world world_new (λ made. octets_read made ≡ octets → (new ≡ added (octets ++ end_line again) old) × (again ≡ status)) }
{}

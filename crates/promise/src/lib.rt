// What a forecast promises of the quiet schedule from a sound state, under every ranking: laws over the definitions alone, before any search.
#![tactic(auto)]

ghost use Rattle.std.specs.Prelude.{◌≡◌, ℕ, ◌+◌, ◌<◌, ◌≤◌, false, List, replicate, Some, None};
ghost use Rattle.model.specs.Tables.{histories};
ghost use Rattle.model.specs.Machine.{State, Outcome};
ghost use Rattle.model.specs.Schedule.{ran, after, given};
ghost use Rattle.model.specs.Tally.{Failure, first_failure};
ghost use Rattle.model.specs.Forecast.{table_of, units_to, at_boundary, NeverFails, Holds, Failing, Fails, Answer, Tells};
ghost use Rattle.laws.specs.Sound.{Sound};
ghost use Rattle.laws.specs.Units.{Ranking};
ghost use Rattle.rounds.specs.Rounds.{Told, LeastRound};
ghost use Rattle.rounds.specs.Passing.{Passing};
ghost use Rattle.promise.specs.Boundaries.{NoneFails, Unfailing, Boundary, AlikeFrom, AgreeWithin, AgainWithin};
ghost use Rattle.promise.specs.Answers.{FirstOf, Returns, Begins};

// At each boundary the bus is idle; the histories there tell those at the next, and the schedules from two boundaries with equal
// histories agree.
pub fn boundary_laws()
    ensures idle { (before : Ranking) (s : State) → Sound s → (i : ℕ) → Boundary before s i }
    ensures told { (before : Ranking) (s : State) → Sound s → Told (at_boundary before s) }
    ensures alike { (before : Ranking) (s : State) → Sound s → (i j : ℕ) → i ≤ j → at_boundary before s i ≡ at_boundary before s j → AlikeFrom before s i j }
{}

// As long as nothing fails, all histories pass at each boundary after boundary 0: every stream has had an outcome by then.
pub fn passing_laws()
    ensures { (before : Ranking) (s : State) → Sound s → (i : ℕ) → Unfailing before s (units_to s (i + 1)) → Passing (table_of s) (at_boundary before s (i + 1)) }
{}

// If nothing fails before the later of two boundaries with equal histories, nothing ever fails. If nothing fails before boundary N + 1,
// two boundaries from 1 to N + 1 agree, and from boundary N on the histories of each stand again within N boundaries.
pub fn round_laws()
    ensures never { (before : Ranking) (s : State) → Sound s → (a b : ℕ) → a < b → at_boundary before s a ≡ at_boundary before s b → Unfailing before s (units_to s b) → NeverFails before s }
    ensures agree { (before : Ranking) (s : State) → Sound s → Unfailing before s (units_to s (histories (table_of s) + 1)) → AgreeWithin before s }
    ensures again { (before : Ranking) (s : State) → Sound s → Unfailing before s (units_to s (histories (table_of s) + 1)) → (met : ℕ) → histories (table_of s) ≤ met → AgainWithin before s met }
{}

// If lam is the least number of boundaries after which any histories stand again, mu the first boundary from which they do, and nothing fails
// before boundary mu + lam, the forecast holds with mu and mu + lam. Two searches find these: lam is the least from one boundary alone.
pub fn holding_laws()
    ensures least { (before : Ranking) (s : State) → Sound s → (mu lam : ℕ) → LeastRound (at_boundary before s) mu lam → Unfailing before s (units_to s (mu + lam)) → Holds before s mu (mu + lam) }
    ensures round { (before : Ranking) (s : State) → Sound s → (met mu lam : ℕ) → Returns before s met lam → Begins before s mu lam → LeastRound (at_boundary before s) mu lam }
    ensures found { (before : Ranking) (s : State) → Sound s → (met mu lam : ℕ) → Returns before s met lam → Begins before s mu lam → Holds before s mu (mu + lam) }
{}

// The first failure of the first unit that has one is the first failure of the schedule, and so is the first of a run of quiet units, or of
// the schedule from a later state before which nothing fails; the first failure among some outcomes is the one picked. A schedule that
// never fails has no failure.
pub fn failing_laws()
    ensures unit { (before : Ranking) (s : State) (n : ℕ) (f : Failure) → Unfailing before s n → FirstOf (given before s n) f → Fails before s f }
    ensures run { (before : Ranking) (s : State) (n : ℕ) (f : Failure) → FirstOf (ran before s (replicate n false)) f → Fails before s f }
    ensures later { (before : Ranking) (s : State) (n : ℕ) (f : Failure) → Unfailing before s n → Fails before (after before s n) f → Fails before s f }
    ensures picked { (os : List Outcome) (f : Failure) → first_failure os ≡ Some f → FirstOf os f }
    ensures none { (os : List Outcome) → first_failure os ≡ None → NoneFails os }
    ensures apart { (before : Ranking) (s : State) → NeverFails before s → (f : Failure) → Failing before s f → ⊥ }
{}

// From every sound state one answer tells what the schedule does, and no other.
pub fn answer_laws()
    ensures some { (before : Ranking) (s : State) → Sound s → (a : Answer) × Tells before s a }
    ensures one { (before : Ranking) (s : State) → Sound s → (a b : Answer) → Tells before s a → Tells before s b → a ≡ b }
{}

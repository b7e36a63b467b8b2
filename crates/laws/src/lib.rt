// What is true of the bus machine over whole runs, for every ranking and every noise. Its definitions alone are spoken of, and no code.
#![tactic(auto)]

ghost use Rattle.std.specs.Prelude.{◌≡◌, ℕ, ◌+◌, ◌≤◌, Bool, List, length, Some, None, slice_index_or};
ghost use Rattle.std.specs.List.{AllByRecursion};
ghost use Rattle.model.specs.Streams.{Stream};
ghost use Rattle.model.specs.Tables.{Table, Divides, hyper_period};
ghost use Rattle.model.specs.Ready.{Total, Chain};
ghost use Rattle.model.specs.Machine.{Row, State, due, unit};
ghost use Rattle.model.specs.Schedule.{started, run, ran};
ghost use Rattle.laws.specs.Sound.{LawfulTable, stream_at, Waits, Sound};
ghost use Rattle.laws.specs.Units.{Ranking, Clear, ReleaseLaws, StartLaws, TransitLaws, Dropped, dropped_in};
ghost use Rattle.laws.specs.Runs.{told, pending, released, Once, Timely};

// A started table of lawful streams is sound, and every run keeps a sound state sound, counts its units and keeps the streams.
pub fn run_laws()
    ensures start { (t : Table) → LawfulTable t → Sound (started t) }
    ensures sound { (before : Ranking) (s : State) (noise : List Bool) → Sound s → Sound (run before s noise) }
    ensures clock { (before : Ranking) (s : State) (noise : List Bool) → (run before s noise).now ≡ s.now + length noise }
    ensures streams { (before : Ranking) (s : State) (noise : List Bool) (i : ℕ) → stream_at (run before s noise) i ≡ stream_at s i }
{}

// A release never meets a waiting frame, and after any number of hyper-periods nothing waits and nothing is in transit.
pub fn release_laws()
    ensures free { (s : State) → Sound s → ReleaseLaws s }
    ensures boundary { (before : Ranking) (t : Table) (noise : List Bool) → LawfulTable t → Divides (hyper_period t) (length noise) → Clear (run before (started t) noise) }
{}

// The frame that starts goes before every other that waits, and an idle bus with a waiting frame starts one.
pub fn start_laws()
    ensures { (before : Ranking) → Total before → Chain before → (s : State) → Sound s → StartLaws before s }
{}

// One frame at a time is in transit, for the service time of its stream and uncut, and then has one outcome.
pub fn transit_laws()
    ensures { (before : Ranking) (noisy : Bool) (s : State) → Sound s → TransitLaws before noisy s }
{}

// A waiting frame is dropped at the first instant from which it can no longer be sent by its deadline, and not before.
pub fn drop_laws()
    ensures dropped { (before : Ranking) (noisy : Bool) (s : State) → Sound s → AllByRecursion (Dropped s s.now (s.now + 1)) (dropped_in before noisy s) }
    ensures left { (before : Ranking) (noisy : Bool) (s : State) → Sound s → (i : ℕ) (r : Row) (j : ℕ) → Waits (unit before noisy s) i r j → (unit before noisy s).now + r.stream.service ≤ due r.stream j }
{}

// What was pending or is released in a run has one outcome in it, or is pending at its end. So in a run of a started table a frame
// has no outcome up to its release, never more than one, and one from its deadline on; and each comes by the deadline.
pub fn outcome_laws()
    ensures account { (before : Ranking) (s : State) (noise : List Bool) → Sound s → (i : ℕ) (f : Stream) (j : ℕ) → stream_at s i ≡ Some f → 1 ≤ j → told i j (ran before s noise) + pending (run before s noise) i j ≡ pending s i j + released s.now (s.now + length noise) f j }
    ensures once { (before : Ranking) (t : Table) (noise : List Bool) → LawfulTable t → (i : ℕ) (f : Stream) (j : ℕ) → slice_index_or t i None ≡ Some f → 1 ≤ j → Once f j (length noise) (told i j (ran before (started t) noise)) }
    ensures timely { (before : Ranking) (t : Table) (noise : List Bool) → LawfulTable t → AllByRecursion (Timely (λ i. slice_index_or t i None)) (ran before (started t) noise) }
{}

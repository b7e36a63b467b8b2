// How a schedule comes round: laws over the definitions alone.
#![tactic(auto)]

ghost use Rattle.std.specs.Prelude.{◌≡◌, ℕ, ◌+◌, ◌<◌, ◌≤◌, Bool};
ghost use Rattle.model.specs.Tables.{Table, histories};
ghost use Rattle.model.specs.Ready.{Ready};
ghost use Rattle.model.specs.Machine.{State};
ghost use Rattle.rounds.specs.Boundaries.{Alike, Agrees};
ghost use Rattle.rounds.specs.Rounds.{Told, Round, LeastRound};
ghost use Rattle.rounds.specs.Passing.{Bits, Passing, Twice};

// An idle bus that stands again with the histories it had, a multiple of all periods later, goes on as it did, by any ranking rule.
pub fn same_again()
    ensures { (before : Ready → Ready → Bool) (t : Table) (d : ℕ) (a b : State) → Alike t d a b → (n : ℕ) → Agrees before d a b n }
{}

// A sequence in which each value tells the next one comes round once a value stands at two places.
pub fn comes_round<X>()
    ensures { (f : ℕ → X) → Told f → (a b : ℕ) → a < b → f a ≡ f b → Round f a b }
{}

// Up to the end of its first round such a sequence has one value at two places: that at mu, where the round begins, and at its end.
pub fn only_pair<X>()
    ensures { (f : ℕ → X) → Told f → (mu lam : ℕ) → LeastRound f mu lam
        → (i j : ℕ) → i < j → j ≤ mu + lam → f i ≡ f j → (i ≡ mu) × (j ≡ mu + lam) }
{}

// Among N + 1 lists of passing histories of a table two are equal.
pub fn some_twice()
    ensures { (t : Table) (g : ℕ → Bits) → ((i : ℕ) → i ≤ histories t → Passing t (g i)) → Twice g (histories t) }
{}

ghost use Rattle.std.specs.Prelude.{◌≡◌, ℕ, ◌≤◌};
ghost use Rattle.firm.specs.Histories.{distance, restoring};
ghost use Rattle.firm.specs.Laws.{DistanceLaws, RestoringLaws};

// What misses and mets do to the distance of any history.
pub fn distance_laws()
    ensures { (m k h : ℕ) → 1 ≤ m → m ≤ k → DistanceLaws m k h }
{}

// What mets do to the restoring distance of any history.
pub fn restoring_laws()
    ensures { (m k h : ℕ) → 1 ≤ m → m ≤ k → RestoringLaws m k h }
{}

// Both distances of a few histories, by their definitions; the leftmost digit is the oldest outcome.
pub fn worked_examples()
    ensures misses { (distance 3 5 0b11011 ≡ 2) × (distance 3 5 0b10111 ≡ 3) × (distance 2 3 0b101 ≡ 1) × (distance 2 3 0b011 ≡ 2) }
    ensures mets { (restoring 4 6 0b100011 ≡ 2) × (restoring 4 6 0b111000 ≡ 4) × (restoring 4 6 0b000111 ≡ 1) × (restoring 5 6 0b101110 ≡ 2) }
{}

ghost use Rattle.std.specs.Prelude.{◌≡◌, ℕ, Bool};
ghost use Rattle.bus.specs.First.{OneAhead, PassedAlong, First, first_place};

// An order between elements of different slots. `ahead` is its meaning, and `place` the slot of an element.
pub trait Precedes<T> {
    ghost place: { T → ℕ };

    ghost ahead: { Self → T → T → Bool };

    // Whether a is ahead of b.
    fn precedes(&self, a: &T, b: &T) -> bool
        ensures { result ≡ ahead self.now a.now b.now };

    // Of two elements in different slots exactly one is ahead of the other.
    ghost total: { (s : Self) → OneAhead place (ahead s) };

    // Over three different slots, being ahead is passed along.
    ghost chain: { (s : Self) → PassedAlong place (ahead s) };
}

// The index of the first element: the one that is ahead of all others, if no two have one slot.
pub fn first_at<T, P: Precedes<T>>(by: &P, xs: &[T]) -> Option<usize>
    ensures value { result ≡ first_place (P.ahead by.now) xs.now }
    ensures first { First P.place (P.ahead by.now) xs.now result }
{
    let (first, _) = xs.iter().enumerate().reduce(|first, next| {
        if by.precedes(next.1, first.1) {
            next
        } else {
            first
        }
    })?;
    Some(first)
}

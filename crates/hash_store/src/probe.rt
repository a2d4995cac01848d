//! Places in a ring.
ghost use Rattle.std.specs.Prelude.{◌≡◌, ◌<◌};
ghost use Rattle.hash_store.specs.Slots.{spot, steps};

/// The place `step` places behind `home`, in a ring of `n`.
pub(crate) fn behind(home: usize, step: usize, n: usize) -> usize
    requires { (home < n) × (step < n) }
    ensures { result ≡ spot n home step }
{
    if step < n - home {
        home + step
    } else {
        step - (n - home)
    }
}

/// How many places behind `home` the place `at` is, in a ring of `n`.
pub(crate) fn distance(home: usize, at: usize, n: usize) -> usize
    requires { (home < n) × (at < n) }
    ensures { result ≡ steps n home at }
{
    if at < home { n - home + at } else { at - home }
}

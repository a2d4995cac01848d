//! What a store looks up.
ghost use Rattle.std.specs.Prelude.{◌≡◌, ℕ, ◌+◌, ◌*◌, ◌%◌, ◌^◌, ◌<◌, true};
ghost use Rattle.stores.specs.Keys.{hash_of_scope_and_name, hash_of_name, scrambled};
ghost use Rattle.stores.specs.Hashes.{scrambled_small};
ghost use Rattle.std.proofs.Common.{rules};

use tables::id::{Name, ScopeId};

/// Keys stand for one pair exactly if `==` says that they are the same.
pub trait Key: Copy + Eq {
    /// The number by which a hashed store finds the key.
    ghost hash: { Self → ℕ };

    fn hash_number(&self) -> u32
        ensures { result ≡ hash self.now };

    ghost hashes: { (x y : Self) → Self.eq x y ≡ true → hash x ≡ hash y };

    ghost small: { (x : Self) → hash x < 2 ^ 32 };
}

/// Keys that are the same are equal. No store needs it, so it is no law of `Key`.
pub trait ExactKey: Key {
    ghost exact: { (x y : Self) → Self.eq x y ≡ true → x ≡ y };
}

/// The key of a binding.
#[derive(Clone, Copy, PartialEq, Eq, Default)]
pub struct ScopeAndName {
    pub scope: ScopeId,
    pub name: Name,
}

// Odd numbers with bits spread evenly.
const SCOPE_FACTOR: u32 = 0x85eb_ca6b;

const NAME_FACTOR: u32 = 0x9e37_79b1;

const SCRAMBLE_FACTOR: u32 = 0xc2b2_ae35;

const FIRST_SHIFT: u32 = 16;

const LAST_SHIFT: u32 = 15;

/// Spreads numbers that lie close together.
fn scramble(x: u32) -> u32
    ensures { result ≡ scrambled x }
{
    let mixed = x ^ (x >> FIRST_SHIFT);
    let product = mixed.wrapping_mul(SCRAMBLE_FACTOR);
    product ^ (product >> LAST_SHIFT)
}

impl Key for ScopeAndName {
    ghost hash = { hash_of_scope_and_name };

    ghost hashes = { Prim.search rules };

    ghost small = { λ x. scrambled_small ((x.scope.0 * 0x85eb_ca6b + x.name.0 * 0x9e37_79b1) % 2 ^ 32) };

    fn hash_number(&self) -> u32 {
        scramble(
            self.scope
                .0
                .wrapping_mul(SCOPE_FACTOR)
                .wrapping_add(self.name.0.wrapping_mul(NAME_FACTOR)),
        )
    }
}

impl ExactKey for ScopeAndName {
    ghost exact = { Prim.search rules };
}

impl Key for Name {
    ghost hash = { hash_of_name };

    ghost hashes = { Prim.search rules };

    ghost small = { λ x. scrambled_small ((x.0 * 0x9e37_79b1) % 2 ^ 32) };

    fn hash_number(&self) -> u32 {
        scramble(self.0.wrapping_mul(NAME_FACTOR))
    }
}

impl ExactKey for Name {
    ghost exact = { Prim.search rules };
}

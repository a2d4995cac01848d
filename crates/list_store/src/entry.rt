//! A pair as it lies in the memory of a list store.

#[derive(Clone, Copy, Default)]
pub struct Entry<K> {
    pub key: K,
    pub number: u32,
}

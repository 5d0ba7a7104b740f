// Survivors in a box.

use bit_pack::WaitBuf;
use std::alloc::{AllocError, Global};
use survivor_ring::Survivors;

/// Survivors in a box, so that the size of the decoder does not depend on their type.
#[derive(Drop)]
pub(crate) struct Held<V: Survivors<L>, const L: usize> {
    pub(crate) inner: Box<V>,
}

impl<V: Survivors<L>, const L: usize> Survivors<L> for Held<V, L> {
    ghost states = { λ h. V.states h.inner.value };

    ghost count = { λ h. V.count h.inner.value };

    ghost list = { λ h. V.list h.inner.value };

    fn new(alloc: Global, alive: u64) -> Result<Self, AllocError> {
        let inner = Box::new(alloc, V::new(alloc, alive)?)?;
        Ok(Held { inner })
    }

    fn waiting(&self) -> u32 {
        self.inner.waiting()
    }

    fn push(&mut self, decisions: u64, alive: u64) {
        self.inner.push(decisions, alive);
    }

    fn push_all(&mut self, decisions: &[u64]) {
        self.inner.push_all(decisions);
    }

    fn shared(&self) -> u32 {
        self.inner.shared()
    }

    fn give(&mut self, number: u32, to: &mut WaitBuf) {
        self.inner.give(number, to);
    }

    fn push_and_give(&mut self, decisions: &[u64], to: &mut WaitBuf) -> u32 {
        self.inner.push_and_give(decisions, to)
    }

    fn force(&mut self, end: u8, to: &mut WaitBuf) {
        self.inner.force(end, to);
    }
}

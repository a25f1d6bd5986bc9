//! The place of a value in a slab.

ghost use Rattle.std.specs.Prelude.{◌≡◌};
ghost use Rattle.std.specs.Borrow.{Lends, sem};

/// A value, and the number that it stands under.
#[derive(Debug, Drop)]
pub struct Slot<V> {
    pub number: u64,
    pub value: V,
}

impl<V> Slot<V> {
    ghost use Rattle.file_tables.specs.contracts.slot.Slot.{the_row};

    /// The value, to change in place. The number stays.
    pub(crate) fn value_mut(&mut self) -> &mut V
        ensures* writes_back { sem 𝓛 (Lends (the_row V.row) V.row self.entry result (λ w. record self.old { value = w })) }
        ensures value { self.old.value ≡ result.now }
    {
        &mut self.value
    }
}

// Values that grow.
ghost use Rattle.std.specs.Prelude.{◌≡◌, ℕ, List, length};

/// A value that stands for a list of items, each with a seat.
pub trait Grows {
    type Item;

    ghost items: { Self → List Self.Item };

    ghost seat_of: { Self.Item → ℕ };

    /// How long the list is.
    fn len(&self) -> u64
        ensures { result ≡ length (items self.now) };
}

// Where a byte first stands.
ghost use Rattle.std.specs.Prelude.{◌≡◌, ◌==◌};
ghost use Rattle.std.specs.List.{position};

pub(crate) fn place_of(bytes: &[u8], wanted: u8) -> Option<usize>
    ensures { result ≡ position (λ b. b == wanted) bytes.now }
{
    bytes.iter().position(|byte| *byte == wanted)
}

ghost use Rattle.std.specs.Prelude.{◌≡◌};
ghost use Rattle.xb_io.specs.Failing.{is_listed};

/// Whether the call of this number is one of those that are to fail.
pub fn is_listed(failing: &[u64], call: u64) -> bool
    ensures { result ≡ is_listed failing.now call }
{
    failing.contains(&call)
}

ghost use Rattle.std.specs.Prelude.{◌≡◌, ℕ};

/// What has a number, by which contracts speak of it.
pub trait Numbered: Drop {
    ghost number: { Self → ℕ };

    fn number(&self) -> u64
        ensures { result ≡ number self.now };
}

// The contract of a key kind.
ghost use Rattle.std.specs.Prelude.{◌≡◌, ℕ};
ghost use Rattle.keys.specs.Laws.{KeyLaws};

// A key kind tells whether two keys are equal, and a key's 32-bit hash.
pub trait Key: Copy + Eq {
    ghost hash: { Self → ℕ };

    // The hash by which the table places the key.
    fn hash(&self) -> u32
        ensures { result ≡ hash self.now };

    ghost lawful: { KeyLaws Self.eq hash };
}

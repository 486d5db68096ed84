// The numbers that lent buffers are made of: one, two or eight bytes wide.
ghost use Rattle.std.specs.Prelude.{◌≡◌, List, ℕ, ◌+◌, ◌*◌, ◌%◌, ◌<◌, ◌≤◌, length, take, drop, ◌∷◌, get_or, refl};
ghost use Rattle.memory.specs.Front.{front};
ghost use Rattle.check_replay_lent.specs.Lent.{pattern};
ghost use Rattle.check_replay_lent.specs.Elements.{pattern_filled, rest_numbered};

// A number of which a buffer is made.
pub trait Element: Copy {
    // A byte, as often as the number has bytes.
    ghost repeated: { ℕ → Self };

    // So many elements of the pattern.
    ghost pattern: { ℕ → List Self };

    // What goes into a checksum, of an element and of a buffer.
    ghost number: { Self → ℕ };

    ghost numbers: { List Self → List ℕ };

    fn repeated(byte: u8) -> Self
        ensures { result ≡ repeated byte };

    fn number(self) -> u64
        ensures { result ≡ number self };

    // What each impl must prove: a front that is written place by place is the pattern,
    ghost pattern_filled: { (old : List Self) (count : ℕ) → count ≤ length old → take count (front (λ i. repeated (i % 128 + 1)) count old) ≡ pattern count };

    // and the numbers of a buffer are those of its elements.
    ghost numbers_long: { (xs : List Self) → length (numbers xs) ≡ length xs };

    ghost numbers_rest: { (xs : List Self) (i : ℕ) (d : Self) → i < length xs → drop i (numbers xs) ≡ number (get_or xs i d) ∷ drop (i + 1) (numbers xs) };
}

impl Element for u8 {
    ghost repeated = { λ byte. byte * 1 };

    ghost pattern = { pattern 1 };

    ghost number = { λ x. x };

    ghost numbers = { λ xs. xs };

    fn repeated(byte: u8) -> u8 {
        byte
    }

    fn number(self) -> u64 {
        u64::from(self)
    }

    ghost pattern_filled = { pattern_filled 1 };

    ghost numbers_long = { λ xs. refl };

    ghost numbers_rest = { rest_numbered };
}

impl Element for u16 {
    ghost repeated = { λ byte. byte * 257 };

    ghost pattern = { pattern 257 };

    ghost number = { λ x. x };

    ghost numbers = { λ xs. xs };

    fn repeated(byte: u8) -> u16 {
        byte as u16 * 257
    }

    fn number(self) -> u64 {
        self as u64
    }

    ghost pattern_filled = { pattern_filled 257 };

    ghost numbers_long = { λ xs. refl };

    ghost numbers_rest = { rest_numbered };
}

impl Element for u64 {
    ghost repeated = { λ byte. byte * 72340172838076673 };

    ghost pattern = { pattern 72340172838076673 };

    ghost number = { λ x. x };

    ghost numbers = { λ xs. xs };

    fn repeated(byte: u8) -> u64 {
        byte as u64 * 72340172838076673
    }

    fn number(self) -> u64 {
        self
    }

    ghost pattern_filled = { pattern_filled 72340172838076673 };

    ghost numbers_long = { λ xs. refl };

    ghost numbers_rest = { rest_numbered };
}

// A bit of a status byte or word that is explained.
ghost use Rattle.std.specs.Prelude.{◌≡◌, ℕ, ◌*◌, ◌^◌, ◌<◌, not, ◌==◌, bit_and};

pub trait Bit: Copy {
    // the highest bit of the byte or the word
    const HIGHEST: u16;

    ghost HIGHEST: { ℕ };

    // how many hexadecimal digits the byte or the word has
    const DIGITS: usize;

    ghost mask_of: { Self → ℕ };

    // its number, counted from the highest
    fn bit(self) -> u8
        ensures value { mask_of self * 2 ^ result ≡ HIGHEST }
        ensures in_word { result < 16 };

    fn meaning(self) -> &'static str;

    // what to do next
    fn advice(self) -> &'static str;

    // the bit in the byte or the word
    fn mask(self) -> u16
        ensures { result ≡ mask_of self }
    {
        Self::HIGHEST >> self.bit()
    }

    // whether the byte or the word has it
    fn is_in(self, word: u16) -> bool
        ensures { result ≡ not (bit_and word (mask_of self) == 0) }
    {
        word & self.mask() != 0
    }
}

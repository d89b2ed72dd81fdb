ghost use Rattle.std.specs.Prelude.{◌≡◌, ◌+◌, ◌*◌, ◌<◌, ◌^◌};

/// A bit of the bytes: bit 0 is the most significant of its byte.
#[derive(Clone, Copy)]
pub struct BitPlace {
    pub byte: usize,
    pub bit: u8,
    ghost in_byte: { bit < 8 },
}

impl BitPlace {
    /// The next bit.
    pub fn after(self) -> BitPlace
        requires { self.byte + 1 < 2 ^ 64 }
        ensures { 8 * result.byte + result.bit ≡ 8 * self.byte + self.bit + 1 }
    {
        if self.bit == 7 {
            BitPlace {
                byte: self.byte + 1,
                bit: 0,
            }
        } else {
            BitPlace {
                byte: self.byte,
                bit: self.bit + 1,
            }
        }
    }
}

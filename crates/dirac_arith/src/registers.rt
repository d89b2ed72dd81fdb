//! The registers of arithmetic decoding: the code less low, with some bits read ahead.
ghost use Rattle.std.specs.Prelude.{◌≡◌, ◌+◌, ◌-◌, ◌*◌, ◌/◌, ◌^◌, ◌<◌, ◌≤◌, ℕ, List, slice_index_or, true, false};
ghost use Rattle.dirac_arith.specs.Interval.{doublings_for};
ghost use Rattle.dirac_arith.specs.Registers.{Settles, Stands, with_part};

/// What a decoder keeps of its place in a block.
#[derive(Clone, Copy)]
pub struct Registers {
    /// The code less low, and behind it the bits read ahead.
    pub window: u64,
    /// How wide the interval is.
    pub range: u32,
    /// The number of bits read ahead.
    pub ahead: u32,
    /// The number of the next byte, which may lie past the end.
    pub next: usize,
}

/// A decision, and the registers after it.
#[derive(Clone, Copy)]
pub struct Decided {
    pub truth: bool,
    pub registers: Registers,
}

/// The byte of a block, ones past its end.
fn byte_at(block: &[u8], place: usize) -> u8
    ensures { result ≡ slice_index_or block.now place 255 }
{
    block.get(place).copied().unwrap_or(0xFF)
}

/// Reads bytes until no more fit behind a window with that many bits ahead.
#[inline(never)]
fn refilled(block: &[u8], mut window: u64, mut ahead: u32, mut next: usize) -> u64
    requires narrow { window < 65536 * 2 ^ ahead }
    requires no_overflow { next < 2 ^ 60 }
    requires ahead { ahead ≤ 48 }
    ensures stands { (range low doublings : ℕ) →
        Stands block.now (record { window = window; range = range; ahead = ahead; next = next }) low doublings →
        let more = (48 - ahead) / 8 in
        Stands block.now (record { window = result; range = range; ahead = ahead + 8 * more; next = next + more })
        low doublings }
    ensures inside { (range : ℕ) → window < range * 2 ^ ahead → result < range * 2 ^ (ahead + 8 * ((48 - ahead) / 8)) }
    ensures outside { (range : ℕ) → range * 2 ^ ahead ≤ window → range * 2 ^ (ahead + 8 * ((48 - ahead) / 8)) ≤ result }
{
    'reading: while ahead <= 40 {
        window = window * 256 + u64::from(byte_at(block, next));
        ahead += 8;
        next += 1;
    }
    window
}

/// Reads bytes until no more fit behind the window.
#[inline(always)]
pub fn refill(block: &[u8], registers: Registers) -> Registers
    requires narrow { registers.window < 65536 * 2 ^ registers.ahead }
    requires no_overflow { registers.next < 2 ^ 60 }
    requires ahead { registers.ahead ≤ 48 }
    ensures stands { (low doublings : ℕ) → Stands block.now registers low doublings
        → Stands block.now result low doublings }
    ensures range { result.range ≡ registers.range }
    ensures some_ahead { 9 ≤ result.ahead }
    ensures most_ahead { result.ahead ≤ 48 }
    ensures inside { (range : ℕ) → registers.window < range * 2 ^ registers.ahead → result.window
        < range * 2 ^ result.ahead }
    ensures outside { (range : ℕ) → range * 2 ^ registers.ahead ≤ registers.window → range * 2 ^ result.ahead
        ≤ result.window }
{
    let more = (48 - registers.ahead) / 8;
    Registers {
        window: refilled(block, registers.window, registers.ahead, registers.next),
        range: registers.range,
        ahead: registers.ahead + 8 * more,
        next: registers.next + more as usize,
    }
}

/// Reads bytes where fewer bits are ahead than a decision may take.
#[inline(always)]
pub fn fill(block: &[u8], registers: Registers) -> Registers
    requires narrow { registers.window < 65536 * 2 ^ registers.ahead }
    requires no_overflow { registers.next < 2 ^ 60 }
    requires ahead { registers.ahead ≤ 48 }
    ensures stands { (low doublings : ℕ) → Stands block.now registers low doublings
        → Stands block.now result low doublings }
    ensures range { result.range ≡ registers.range }
    ensures some_ahead { 9 ≤ result.ahead }
    ensures most_ahead { result.ahead ≤ 48 }
    ensures inside { (range : ℕ) → registers.window < range * 2 ^ registers.ahead → result.window
        < range * 2 ^ result.ahead }
{
    if registers.ahead >= 9 {
        return registers;
    }
    refill(block, registers)
}

/// The registers at the begin of a block: 16 bits of code, and bits ahead.
pub fn begin(block: &[u8]) -> Registers
    ensures stands { Stands block.now result 0 0 }
    ensures range { result.range ≡ 0xFFFF }
    ensures some_ahead { 9 ≤ result.ahead }
    ensures most_ahead { result.ahead ≤ 48 }
    ensures inside { result.window < 65536 * 2 ^ result.ahead }
{
    let code = u64::from(byte_at(block, 0)) * 256 + u64::from(byte_at(block, 1));
    refill(
        block,
        Registers {
            window: code,
            range: 0xFFFF,
            ahead: 0,
            next: 2,
        },
    )
}

/// Whether the code lies past the range.
pub fn is_past(registers: Registers) -> bool
    requires narrow { registers.range ≤ 0xFFFF }
    requires ahead { registers.ahead ≤ 48 }
    ensures past { result ≡ true → registers.range * 2 ^ registers.ahead ≤ registers.window }
    ensures inside { result ≡ false → registers.window < registers.range * 2 ^ registers.ahead }
{
    registers.window >= u64::from(registers.range) << registers.ahead
}

/// The number of doublings that take a range above 0x4000: by the place of the upper bit of the number before it.
#[inline(always)]
pub fn doublings(range: u32) -> u32
    requires above_32 { 32 < range }
    requires narrow { range ≤ 0xFFFF }
    ensures least { result ≡ doublings_for range }
    ensures at_most_9 { result ≤ 9 }
{
    let most = range - 1;
    14 + most / 32768 - (31 - most.leading_zeros())
}

/// The registers with this window and range, as often doubled as the range needs.
#[inline(always)]
fn doubled(registers: Registers, window: u64, range: u32) -> Registers
    requires above_32 { 32 < range }
    requires narrow { range ≤ 0xFFFF }
    requires ahead { 9 ≤ registers.ahead }
    ensures { result ≡ with_part registers window range }
{
    let count = doublings(range);
    Registers {
        window,
        range: range << count,
        ahead: registers.ahead - count,
        next: registers.next,
    }
}

/// The same where the range seldom needs a doubling: the usual way has no sum.
#[inline(always)]
fn seldom_doubled(registers: Registers, window: u64, range: u32) -> Registers
    requires above_32 { 32 < range }
    requires narrow { range ≤ 0xFFFF }
    requires ahead { 9 ≤ registers.ahead }
    ensures { result ≡ with_part registers window range }
{
    if range > 0x4000 {
        return Registers {
            window,
            range,
            ahead: registers.ahead,
            next: registers.next,
        };
    }
    doubled(registers, window, range)
}

/// A number less another one where it isn't below that, else the number itself. It has no branch.
#[inline(always)]
fn less_where_not_below(number: u64, other: u64) -> u64
    ensures not_below { other ≤ number → result ≡ number - other }
    ensures below { number < other → result ≡ number }
{
    number.wrapping_sub(other).min(number)
}

/// Takes one decision at a context of this probability.
#[inline(always)]
pub fn decide(registers: Registers, probability: u16) -> Decided
    requires wide { 0x4000 < registers.range }
    requires narrow { registers.range ≤ 0xFFFF }
    requires some_probability { 254 ≤ probability }
    requires most_probability { probability ≤ 65281 }
    requires some_ahead { 9 ≤ registers.ahead }
    requires most_ahead { registers.ahead ≤ 48 }
    requires inside { registers.window < registers.range * 2 ^ registers.ahead }
    ensures { Settles registers (registers.range * probability / 2 ^ 16) result.truth result.registers }
{
    let split = registers.range * u32::from(probability) / 65536;
    let whole = u64::from(split);
    let bound = whole << registers.ahead;
    let truth = registers.window >= bound;
    let window = less_where_not_below(registers.window, bound);
    let range = if truth {
        registers.range - split
    } else {
        split
    };
    Decided {
        truth,
        registers: doubled(registers, window, range),
    }
}

/// The same by ways that have sums of their own: behind the one that is foreseen the next decision need not wait for
/// the code.
#[inline(always)]
pub fn foresee(registers: Registers, probability: u16) -> Decided
    requires wide { 0x4000 < registers.range }
    requires narrow { registers.range ≤ 0xFFFF }
    requires some_probability { 254 ≤ probability }
    requires most_probability { probability ≤ 65281 }
    requires some_ahead { 9 ≤ registers.ahead }
    requires most_ahead { registers.ahead ≤ 48 }
    requires inside { registers.window < registers.range * 2 ^ registers.ahead }
    ensures { Settles registers (registers.range * probability / 2 ^ 16) result.truth result.registers }
{
    let split = registers.range * u32::from(probability) / 65536;
    let whole = u64::from(split);
    let bound = whole << registers.ahead;
    if registers.window >= bound {
        let window = registers.window - bound;
        Decided {
            truth: true,
            registers: seldom_doubled(registers, window, registers.range - split),
        }
    } else {
        Decided {
            truth: false,
            registers: doubled(registers, registers.window, split),
        }
    }
}

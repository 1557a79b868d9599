//! A ttl in whole seconds, as the 32 bits of an IEEE 754 binary32 number.

ghost use Rattle.std.specs.Prelude.{◌≡◌, ◌↔◌, ℕ, ◌+◌, ◌*◌, ◌/◌, ◌%◌, ◌^◌, ◌<◌, ◌≤◌, Some};
ghost use Rattle.std.specs.Option.{SomeIff};
ghost use Rattle.riemann_msg.specs.Ttl.{IsTtl, IsSpellableTtl, exponent_of, fraction_of, seconds_of, bits_of};

/// The bits of a fraction.
const FRACTION_BITS: u32 = 23;

/// The bit above the fraction, which is not spelled.
const LEADING_BIT: u32 = 0x80_0000;

/// The exponent of the numbers whose last digit counts ones.
const ONES: u32 = 150;

/// The greatest exponent of numbers below 2^31.
const GREATEST_EXPONENT: u32 = 157;

/// The whole number of seconds that the bits of a binary32 number represent. It is `None` for fractions, negative
/// numbers, infinities, NaNs, and numbers from 2^31 on. Both zeros are 0.
#[inline(always)]
pub fn ttl_of_bits(bits: u32) -> Option<u32>
    ensures value { result ≡ seconds_of bits }
    ensures whole { (seconds : ℕ) → (result ≡ Some seconds) ↔ IsTtl bits seconds }
{
    let exponent = exponent_of(bits);
    let fraction = fraction_of(bits);
    if exponent == 0 && fraction == 0 {
        return Some(0);
    }
    if bits >> 31 != 0 || exponent == 0 || exponent > GREATEST_EXPONENT {
        return None;
    }
    whole_of(LEADING_BIT + fraction, exponent)
}

/// The eight bits below the sign.
#[tactic(auto, using(crate::proofs::TtlBits::eight_bits))]
#[inline(always)]
fn exponent_of(bits: u32) -> u32
    ensures { result ≡ exponent_of bits }
{
    (bits >> FRACTION_BITS) & 0xff
}

/// The lowest 23 bits.
#[tactic(auto, using(crate::proofs::TtlBits::lowest_bits))]
#[inline(always)]
fn fraction_of(bits: u32) -> u32
    ensures { result ≡ fraction_of bits }
{
    bits & (LEADING_BIT - 1)
}

/// `significand * 2^(exponent - 150)`, where that is a whole number.
#[inline(always)]
fn whole_of(significand: u32, exponent: u32) -> Option<u32>
    requires least { 2 ^ 23 ≤ significand }
    requires greatest { significand < 2 ^ 24 }
    requires small { exponent ≤ 157 }
    ensures { SomeIff result (significand * 2 ^ exponent % 2 ^ 150 ≡ 0)
        (significand * 2 ^ exponent / 2 ^ 150) }
{
    if exponent >= ONES {
        return Some(significand << (exponent - ONES));
    }
    let places = ONES - exponent;
    if places > FRACTION_BITS || significand & ((1 << places) - 1) != 0 {
        return None;
    }
    Some(significand >> places)
}

/// The bits of the binary32 number that equals the ttl; 0 is four bytes of zero. If no bits represent the number, its
/// binary digits after the first 24 are left out. From 2^31 on, the bits are not those of a ttl.
pub fn bits_of_ttl(ttl: u32) -> u32
    ensures bits { result ≡ bits_of ttl }
    ensures spells { IsSpellableTtl ttl → IsTtl result ttl }
    ensures only { 0 < ttl → (bits : ℕ) → IsTtl bits ttl → bits ≡ result }
{
    if ttl == 0 {
        return 0;
    }
    let top = 31 - ttl.leading_zeros();
    ((126 + top) << FRACTION_BITS) + significand(ttl, top)
}

/// The digits of a number, shifted so that its highest one is the leading bit.
fn significand(number: u32, top: u32) -> u32
    requires least { 2 ^ top ≤ number }
    requires greatest { number < 2 * 2 ^ top }
    requires small { top < 32 }
    ensures value { result ≡ number * 2 ^ 23 / 2 ^ top }
    ensures below { result < 2 ^ 24 }
{
    if top <= FRACTION_BITS {
        number << (FRACTION_BITS - top)
    } else {
        number >> (top - FRACTION_BITS)
    }
}

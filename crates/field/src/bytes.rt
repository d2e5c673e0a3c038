// The product of two bytes as elements of the field of 256.
ghost use Rattle.std.specs.Prelude.{◌≡◌, ◌%◌, if◌then◌else◌, nat_eq};
ghost use Rattle.gfmath.specs.Polynomials.{carryless, product, LeftBy};

// a where b is odd, else 0.
fn where_odd(b: u8, a: u8) -> u8
    ensures { result ≡ (if nat_eq (b % 2) 1 then a else 0) }
{
    if b % 2 == 1 { a } else { 0 }
}

// Times the element 2, which is x.
fn doubled(a: u8) -> u8
    ensures { result ≡ product a 2 }
{
    if a < 128 {
        2 * a
    } else {
        ((2 * a as u16) ^ 0x11D) as u8
    }
}

// The product without carries, and what division of it by 0x11D leaves.
pub fn multiply(a: u8, b: u8) -> u8
    ensures value { result ≡ product a b }
    ensures remainder { LeftBy (carryless 8 a b) result }
{
    let mut sum = 0u8;
    let mut shifted = a;
    let mut rest = b;
    for _i in 0..8u8 {
        sum ^= where_odd(rest, shifted);
        shifted = doubled(shifted);
        rest /= 2;
    }
    sum
}

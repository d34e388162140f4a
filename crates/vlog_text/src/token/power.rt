//! Whether a number of any length is below a power of two.

ghost use Rattle.std.specs.Prelude.{◌≡◌, ◌≤◌, ◌<◌, ◌*◌, ◌^◌, ◌/◌, length, nat_lt, IfOk};
ghost use Rattle.std.specs.Str.Parse.{digits_value, AllDigits};

use base::texts::digit_value;
use std::alloc::{AllocError, Global};

/// Whether the decimal number is below 2 to the power of the other one.
pub fn is_below(alloc: Global, digits: &[u8], power: &[u8]) -> Result<bool, AllocError>
    requires { AllDigits 10 digits.now }
    ensures { IfOk result (λ below. below ≡ nat_lt (digits_value 10 digits.now) (2 ^ digits_value 10 power.now)) }
{
    match base::texts::number(10, power) {
        Some(power) => is_below_power(alloc, digits, power),
        None => Ok(true),
    }
}

/// The same with the power as a number.
fn is_below_power(alloc: Global, digits: &[u8], power: u128) -> Result<bool, AllocError>
    requires { AllDigits 10 digits.now }
    ensures { IfOk result (λ below. below ≡ nat_lt (digits_value 10 digits.now) (2 ^ power)) }
{
    if power >= 4 * digits.len() as u128 {
        return Ok(true);
    }
    if power <= 128 {
        return Ok(is_below_small(digits, power as u32));
    }
    is_below_large(alloc, digits, power)
}

/// The same with a power of at most 128.
fn is_below_small(digits: &[u8], power: u32) -> bool
    requires { power ≤ 128 }
    ensures { result ≡ nat_lt (digits_value 10 digits.now) (2 ^ power) }
{
    match base::texts::number(10, digits) {
        Some(value) => power == 128 || value < 1 << power,
        None => false,
    }
}

/// The same with a power past that. It divides number and power by the same power of two until a small one is left.
fn is_below_large(alloc: Global, digits: &[u8], power: u128) -> Result<bool, AllocError>
    requires digits { AllDigits 10 digits.now }
    requires large { 128 ≤ power }
    ensures { IfOk result (λ below. below ≡ nat_lt (digits_value 10 digits.now) (2 ^ power)) }
{
    let mut number = Vec::from_slice(alloc, digits)?;
    let mut left = power;
    'power: while left > 128 {
        let step = (left - 128).min(56) as u32;
        number = divided(alloc, &number, step)?;
        left -= u128::from(step);
    }
    Ok(is_below_small(&number, 128))
}

/// A number divided by a power of two, rounded down.
fn divided(alloc: Global, digits: &[u8], power: u32) -> Result<Vec<u8>, AllocError>
    requires digits { AllDigits 10 digits.now }
    requires small { power ≤ 56 }
    ensures digits { IfOk result (λ quotient. AllDigits 10 quotient.items) }
    ensures value { IfOk result (λ quotient. digits_value 10 quotient.items ≡ digits_value 10 digits.now / 2 ^ power) }
{
    let divisor = power_of_two(power);
    let mut quotient = Vec::new(alloc);
    let mut rest = 0u64;
    'digits: for digit in digits {
        let part = 10 * rest + u64::from(digit_value(*digit));
        quotient.push(b'0' + (part / divisor) as u8)?;
        rest = part % divisor;
    }
    Ok(quotient)
}

fn power_of_two(power: u32) -> u64
    requires { power ≤ 56 }
    ensures { result ≡ 2 ^ power }
{
    1 << power
}

//! Products of whole millionths, rounded down.
ghost use Rattle.std.specs.Prelude.{◌≡◌, ◌≤◌, ◌^◌, pos, ◌+ℤ◌, ◌*ℤ◌, FitsSigned, IfSome, unsigned_abs};
ghost use Rattle.std.specs.Int.{w128};
ghost use Rattle.gs_score.specs.Millionths.{scaled, squared, times};

/// Returns the product of a weight and an amount, rounded down: towards minus infinity, so that -1 times 500,000 millionths
/// is -1. The weight is at most 10^9 either way, and the amount at most 10^24.
pub fn times(weight: i64, amount: i128) -> i128
    requires weight { unsigned_abs weight ≤ 10 ^ 9 }
    requires amount { unsigned_abs amount ≤ 10 ^ 24 }
    ensures { result ≡ times weight amount }
{
    match small_product(weight, amount) {
        Some(product) => product,
        None => product(weight as i128, amount),
    }
}

/// Returns the product if it fits 64 bits before it is scaled. Most products do, at a tenth of the cost.
#[tactic(auto, unfolding(crate::specs::Millionths::times))]
fn small_product(weight: i64, amount: i128) -> Option<i128>
    ensures { IfSome result (λ product. product ≡ times weight amount) }
{
    let Ok(small) = i64::try_from(amount) else {
        return None;
    };
    let product = weight.checked_mul(small)?;
    Some(i128::from(product.div_euclid(1_000_000)))
}

/// Returns a product that fits, rounded down.
#[tactic(auto, unfolding(crate::specs::Millionths::times))]
fn product(a: i128, b: i128) -> i128
    requires { FitsSigned w128 (a *ℤ b) }
    ensures { result ≡ times a b }
{
    (a * b).div_euclid(1_000_000)
}

/// Returns an amount of at most 10^18, times a weight. The result is at most 10^21 either way.
pub(crate) fn weighed(weight: i64, amount: u64) -> i128
    requires weight { unsigned_abs weight ≤ 10 ^ 9 }
    requires amount { amount ≤ 10 ^ 18 }
    ensures value { result ≡ times weight (pos amount) }
    ensures bound { unsigned_abs result ≤ 10 ^ 21 }
{
    times(weight, amount as i128)
}

/// Returns a sum of at most 10^22 either way, times a weight. The result is at most 10^25 either way.
pub(crate) fn weighed_sum(weight: i64, sum: i128) -> i128
    requires weight { unsigned_abs weight ≤ 10 ^ 9 }
    requires sum { unsigned_abs sum ≤ 10 ^ 22 }
    ensures value { result ≡ times weight sum }
    ensures bound { unsigned_abs result ≤ 10 ^ 25 }
{
    times(weight, sum)
}

/// Returns the sum of five amounts of at most 10^21 either way.
pub(crate) fn sum_of_five(a: i128, b: i128, c: i128, d: i128, e: i128) -> i128
    requires a { unsigned_abs a ≤ 10 ^ 21 }
    requires b { unsigned_abs b ≤ 10 ^ 21 }
    requires c { unsigned_abs c ≤ 10 ^ 21 }
    requires d { unsigned_abs d ≤ 10 ^ 21 }
    requires e { unsigned_abs e ≤ 10 ^ 21 }
    ensures value { result ≡ a +ℤ b +ℤ c +ℤ d +ℤ e }
    ensures bound { unsigned_abs result ≤ 10 ^ 22 }
{
    a + b + c + d + e
}

/// Returns the sum of four amounts of at most 10^29 either way.
pub(crate) fn sum_of_four(a: i128, b: i128, c: i128, d: i128) -> i128
    requires a { unsigned_abs a ≤ 10 ^ 29 }
    requires b { unsigned_abs b ≤ 10 ^ 29 }
    requires c { unsigned_abs c ≤ 10 ^ 29 }
    requires d { unsigned_abs d ≤ 10 ^ 29 }
    ensures value { result ≡ a +ℤ b +ℤ c +ℤ d }
    ensures bound { unsigned_abs result ≤ 10 ^ 30 }
{
    a + b + c + d
}

/// Returns the product of a factor and an amount, rounded down. Both are at most 10^12.
pub fn scaled(factor: u64, amount: u64) -> u64
    requires factor { factor ≤ 10 ^ 12 }
    requires amount { amount ≤ 10 ^ 12 }
    ensures value { result ≡ scaled factor amount }
    ensures most { result ≤ 10 ^ 18 }
{
    match factor.checked_mul(amount) {
        Some(product) => product / 1_000_000,
        None => (u128::from(factor) * u128::from(amount) / 1_000_000) as u64,
    }
}

/// Returns the square of an amount of at most 10^12, rounded down.
pub fn squared(amount: u64) -> u64
    requires { amount ≤ 10 ^ 12 }
    ensures value { result ≡ squared amount }
    ensures most { result ≤ 10 ^ 18 }
{
    scaled(amount, amount)
}

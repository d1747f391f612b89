// Whole numbers and lists: definitions in specs/, their laws in proofs/, and the two operations of whole numbers that the rules need.
#![tactic(auto)]

ghost use Rattle.std.specs.Prelude.{◌≡◌, ◌^◌, ◌≤◌, nat_abs};
ghost use Rattle.numbers.specs.Integer.{dist, half_up};

/// The distance of two numbers, in their unit: |u − v|.
pub fn abs_diff(u: i64, v: i64) -> u64
    requires { (nat_abs u ≤ 2 ^ 61) × (nat_abs v ≤ 2 ^ 61) }
    ensures { result ≡ dist u v }
{
    (u - v).unsigned_abs()
}

/// Half of t, rounded towards plus infinity (RULES "Corner bound"): 2 for 3, −1 for −3, −2 for −4. Nothing of the product calls it: it
/// serves the corner bound, with which tests compare the bound.
pub fn half_up(t: i64) -> i64
    ensures { result ≡ half_up t }
{
    if 0 < t { t - t / 2 } else { t / 2 }
}

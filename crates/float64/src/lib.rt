// Doubles that the papers name, and tests on single doubles.
#![tactic(auto)]

ghost use Rattle.std.specs.Prelude.{◌≡◌, T};
ghost use Rattle.std.specs.Float.Ieee.Positive.{positive};
ghost use Rattle.float64.specs.Values.{tolerance, raw_limit, sheet_limit, parameter_limit, base_low, base_high, within, in_range, max_zero};

// 1 divided by 1,000,000, rounded once.
pub fn tolerance() -> f64
    ensures { result ≡ tolerance }
{
    1.0 / 1000000.0
}

// The greatest magnitude of a network or raw reading: 10^12.
pub fn raw_limit() -> f64
    ensures { (result ≡ raw_limit) × T (positive result) }
{
    1000000000000.0
}

// The greatest magnitude of a sheet reading or a solved column: 10^15.
pub fn sheet_limit() -> f64
    ensures { (result ≡ sheet_limit) × T (positive result) }
{
    1000000000000000.0
}

// The greatest magnitude in a parameter sheet: the double nearest to 10^60.
pub fn parameter_limit() -> f64
    ensures { (result ≡ parameter_limit) × T (positive result) }
{
    1000000000000000000000000000000000000000000000000000000000000.0
}

// The least base_mva: one thousandth, rounded once.
pub fn base_low() -> f64
    ensures { result ≡ base_low }
{
    1.0 / 1000.0
}

// The greatest base_mva: 10^6.
pub fn base_high() -> f64
    ensures { result ≡ base_high }
{
    1000000.0
}

// Whether x lies between two bounds, the bounds included.
pub fn in_range(x: f64, low: f64, high: f64) -> bool
    ensures { result ≡ in_range low high x }
{
    if low <= x { x <= high } else { false }
}

// Whether x is finite and of magnitude at most a positive limit.
pub fn within(x: f64, limit: f64) -> bool
    requires { T (positive limit) }
    ensures { result ≡ within limit x }
{
    in_range(x, -limit, limit)
}

// The larger of x and 0: +0 for either zero.
pub fn max_zero(x: f64) -> f64
    ensures { result ≡ max_zero x }
{
    if 0.0 < x { x } else { 0.0 }
}

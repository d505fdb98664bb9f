// A quotient by Q, rounded towards minus infinity. None is cut towards zero.
ghost use Rattle.std.specs.Prelude.{◌≡◌};
ghost use Rattle.arithmetic.specs.Floor.{◌÷◌};
ghost use Rattle.sine_series.specs.Tables.{Q};

// floor(z / Q). A shift of a signed number rounds down.
pub fn over_q(z: i64) -> i64
    ensures { result ≡ z ÷ Q }
{
    z >> 30
}

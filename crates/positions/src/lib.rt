// Positions: three binary64 coordinates by value (document 01, "A position is three binary64 coordinates x, y, z").
#![tactic(auto)]

ghost use Rattle.std.specs.Prelude.{◌≡◌};
ghost use Rattle.std.specs.Float.Ieee.Scale.{finite};
ghost use Rattle.positions.specs.Position.{plus, product, quotient, zeros, small, finite_position, placed_at};

// A position: its coordinates x, y and z.
#[derive(Clone, Copy)]
pub struct Position {
    pub x: f64,
    pub y: f64,
    pub z: f64,
}

// What a position rule answers: three finite coordinates, or the word that one is not finite (document 01, "What form each place takes").
#[derive(Clone, Copy)]
pub enum Placed {
    At(f64, f64, f64),
    NotFinite,
}

impl Position {
    // The position whose coordinates are all +0.
    pub fn origin() -> Self
        ensures { result ≡ zeros }
    {
        Position {
            x: 0.0,
            y: 0.0,
            z: 0.0,
        }
    }

    pub fn plus(self, q: Position) -> Self
        ensures { result ≡ plus self q }
    {
        Position {
            x: self.x + q.x,
            y: self.y + q.y,
            z: self.z + q.z,
        }
    }

    pub fn times(self, w: f64) -> Self
        ensures { result ≡ product self w }
    {
        Position {
            x: self.x * w,
            y: self.y * w,
            z: self.z * w,
        }
    }

    pub fn over(self, w: f64) -> Self
        ensures { result ≡ quotient self w }
    {
        Position {
            x: self.x / w,
            y: self.y / w,
            z: self.z / w,
        }
    }

    // Whether all three coordinates are finite.
    pub fn is_finite(self) -> bool
        ensures { result ≡ finite_position self }
    {
        is_finite(self.x) && is_finite(self.y) && is_finite(self.z)
    }

    // What a position rule answers where this is the position that it found.
    pub fn placed(self) -> Placed
        ensures { result ≡ placed_at self }
    {
        if self.is_finite() {
            Placed::At(self.x, self.y, self.z)
        } else {
            Placed::NotFinite
        }
    }
}

// Whether a number is finite: neither infinite nor a NaN.
pub fn is_finite(v: f64) -> bool
    ensures { result ≡ finite v }
{
    v - v == 0.0
}

// Whether a number is small: from -t to t, ends included.
pub fn is_small(v: f64) -> bool
    ensures { result ≡ small v }
{
    -0.000001 <= v && v <= 0.000001
}

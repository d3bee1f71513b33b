//! The sign of a window and the carry into the window above it.
ghost use Rattle.std.specs.Prelude.{◌≡◌};
ghost use Rattle.inputs.specs.Signs.{sign_value, carry_value};

/// A window's sign.
#[derive(Clone, Copy, PartialEq, Eq, Debug)]
pub enum Sign {
    Plus = 1,
    Minus = -1,
}

impl Sign {
    /// +1 or -1.
    pub fn value(self) -> i32
        ensures { result ≡ sign_value self }
    {
        self as i32
    }
}

/// What a window adds to the window above it.
#[derive(Clone, Copy, PartialEq, Eq, Debug)]
pub enum Carry {
    Down = -1,
    Zero = 0,
    Up = 1,
}

impl Carry {
    /// -1, 0 or +1.
    pub fn value(self) -> i32
        ensures { result ≡ carry_value self }
    {
        self as i32
    }
}

/// What a sign rule answers for a window.
#[derive(Clone, Copy)]
pub struct Choice {
    pub sign: Sign,
    pub carry: Carry,
}

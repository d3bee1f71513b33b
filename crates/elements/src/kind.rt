//! The three groups by number.
ghost use Rattle.std.specs.Prelude.{◌≡◌};
ghost use Rattle.elements.specs.Kinds.{numbered};

/// The three groups.
#[derive(Clone, Copy, PartialEq, Eq, Debug)]
pub enum GroupKind {
    Sums,
    Clock,
    Curve,
}

/// A number that no group has.
#[derive(Clone, Copy, PartialEq, Eq, Debug)]
pub struct NoSuchGroup {
    pub number: u32,
}

impl TryFrom<u32> for GroupKind {
    type Error = NoSuchGroup;

    ghost try_from_gives = { λ number r. r ≡ numbered number };

    /// The group of a number from 1 to 3.
    fn try_from(number: u32) -> Result<GroupKind, NoSuchGroup> {
        match number {
            1 => Ok(GroupKind::Sums),
            2 => Ok(GroupKind::Clock),
            3 => Ok(GroupKind::Curve),
            _ => Err(NoSuchGroup { number }),
        }
    }
}

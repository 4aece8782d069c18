//! The dimensions of arrays.
ghost use Rattle.std.specs.Prelude.{◌≡◌};
ghost use Rattle.mql_types.specs.Types.{is_array, alike, element_dimensions, is_dynamic};

/// The dimensions of an array, at most four, each with its size, which is 0 where it changes (MQL5 Reference,
/// Language Basics, Variables, Arrays). Only a first dimension may have a size that changes.
#[derive(Clone, Copy, Debug, PartialEq, Eq)]
pub enum Dimensions {
    /// It is no array.
    None,
    One(u32),
    Two(u32, u32),
    Three(u32, u32, u32),
    Four(u32, u32, u32, u32),
}

impl Dimensions {
    /// Whether it is an array.
    pub fn is_array(self) -> bool
        ensures { result ≡ is_array self }
    {
        match self {
            Dimensions::None => false,
            _ => true,
        }
    }

    /// Whether two arrays have the same dimensions but for the size of the first.
    pub fn alike(self, other: Dimensions) -> bool
        ensures { result ≡ alike self other }
    {
        match self {
            Dimensions::None => match other {
                Dimensions::None => true,
                _ => false,
            },
            Dimensions::One(_) => match other {
                Dimensions::One(_) => true,
                _ => false,
            },
            Dimensions::Two(_, b) => match other {
                Dimensions::Two(_, f) => b == f,
                _ => false,
            },
            Dimensions::Three(_, b, c) => match other {
                Dimensions::Three(_, f, g) => b == f && c == g,
                _ => false,
            },
            Dimensions::Four(_, b, c, d) => match other {
                Dimensions::Four(_, f, g, h) => b == f && (c == g && d == h),
                _ => false,
            },
        }
    }

    /// The dimensions of what stands at a place of the first dimension.
    pub fn element(self) -> Dimensions
        ensures { result ≡ element_dimensions self }
    {
        match self {
            Dimensions::None | Dimensions::One(_) => Dimensions::None,
            Dimensions::Two(_, b) => Dimensions::One(b),
            Dimensions::Three(_, b, c) => Dimensions::Two(b, c),
            Dimensions::Four(_, b, c, d) => Dimensions::Three(b, c, d),
        }
    }

    /// Whether it is an array of one dimension, whose size changes.
    pub fn is_dynamic_line(self) -> bool
        ensures { result ≡ is_dynamic self }
    {
        match self {
            Dimensions::One(n) => n == 0,
            _ => false,
        }
    }
}

//! The periods of bars.
ghost use Rattle.std.specs.Prelude.{◌≡◌, ◌≤◌};
ghost use Rattle.market_types.specs.Words.{period_name, period_seconds};

/// The length of a bar (MQL5 Reference, enumeration ENUM_TIMEFRAMES).
#[derive(Clone, Copy, Debug, PartialEq, Eq)]
pub enum Period {
    /// One minute.
    M1,
    /// Five minutes.
    M5,
    /// 15 minutes.
    M15,
    /// 30 minutes.
    M30,
    /// One hour.
    H1,
    /// Four hours.
    H4,
    /// One day.
    D1,
}

impl Period {
    /// The period's word in settings and reports.
    pub fn name(self) -> &'static str
        ensures { result.now ≡ period_name self }
    {
        match self {
            Period::M1 => "M1",
            Period::M5 => "M5",
            Period::M15 => "M15",
            Period::M30 => "M30",
            Period::H1 => "H1",
            Period::H4 => "H4",
            Period::D1 => "D1",
        }
    }

    /// How many seconds a bar of the period is long.
    pub fn seconds(self) -> u32
        ensures value { result ≡ period_seconds self }
        ensures above { 1 ≤ result }
    {
        match self {
            Period::M1 => 60,
            Period::M5 => 300,
            Period::M15 => 900,
            Period::M30 => 1_800,
            Period::H1 => 3_600,
            Period::H4 => 14_400,
            Period::D1 => 86_400,
        }
    }
}

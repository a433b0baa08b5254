// What a sheet is asked about, and the fraction that it answers.

/// How a dwelling is reached.
#[derive(Clone, Copy, PartialEq, Eq, Debug)]
pub enum Kind {
    /// Covered by a PM, the cabinet where operators connect.
    Covered,
    /// Connectable through a site's cabling.
    Connectable,
    /// Connectable where a third party cabled the building.
    ThirdParty,
}

/// An unreduced fraction by which a price is multiplied.
#[derive(Clone, Copy, PartialEq, Eq, Debug)]
pub struct Coefficient {
    /// 0 to 480,000,000, and at most 4 times the denominator.
    pub numerator: u32,
    /// 1 to 240,000,000.
    pub denominator: u32,
}

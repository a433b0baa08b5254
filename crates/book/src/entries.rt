// The entries of the two tables that are lent to each call.
use tariff::kinds::Kind;
use tariff::questions::YEAR_INDICES;

/// An operator on the roll. A counted entry outside the limits named here is refused by 1.
#[derive(Clone, Copy, PartialEq, Eq, Debug)]
pub struct RollEntry {
    /// The operator's number, not 0 and no other entry's.
    pub operator: u32,
    /// Tranches subscribed in each year index, from 0 on; 1 to 20 together.
    pub tranches: [u32; YEAR_INDICES],
    /// What it was credited, in micro-euros, at most 4×10^18.
    pub balance: u64,
}

/// An object in the register: a PM, or a site with its cabling. A counted entry outside the limits named here is refused
/// by 1.
#[derive(Clone, Copy, PartialEq, Eq, Debug)]
pub struct RegisterEntry {
    /// The object's number, not 0 and no other entry's.
    pub object: u32,
    /// What the object makes of its dwellings: covered, connectable, or connectable through a third party's cabling.
    pub kind: Kind,
    /// The day of its installation, yyyymmdd, a real date.
    pub installed: u32,
    /// Its dwellings, 1 to 10,000.
    pub dwellings: u32,
}

impl RollEntry {
    /// What a place of a roll holds before an operator is entered there.
    pub const BLANK: RollEntry = RollEntry {
        operator: 0,
        tranches: [0; YEAR_INDICES],
        balance: 0,
    };
}

impl RegisterEntry {
    /// What a place of a register holds before an object is entered there.
    pub const BLANK: RegisterEntry = RegisterEntry {
        object: 0,
        kind: Kind::Covered,
        installed: 0,
        dwellings: 0,
    };
}

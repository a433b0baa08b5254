// The network's own price records.
ghost use Rattle.std.specs.Prelude.{◌≡◌, true};
ghost use Rattle.series.specs.Rows.{sound};
ghost use Rattle.sheet_parts.specs.Given.{prices_in_limits};
ghost use Rattle.sheets.specs.Network.{network_records};

use series::Dated;
use sheet_parts::given::Prices;

// Prices per tranche and dwelling in micro-euros, from each date on.
const RECORDS: [Dated<Prices>; 5] = [
    Dated {
        date: 20080101,
        value: Prices {
            covered: 6_910_000,
            connectable: 18_770_000,
            third: 16_200_000,
        },
    },
    Dated {
        date: 20211001,
        value: Prices {
            covered: 6_939_900,
            connectable: 18_851_218,
            third: 16_270_097,
        },
    },
    Dated {
        date: 20220901,
        value: Prices {
            covered: 7_049_769,
            connectable: 19_149_661,
            third: 16_527_677,
        },
    },
    Dated {
        date: 20230701,
        value: Prices {
            covered: 7_218_082,
            connectable: 19_606_860,
            third: 16_922_277,
        },
    },
    Dated {
        date: 20240701,
        value: Prices {
            covered: 7_478_824,
            connectable: 20_315_128,
            third: 17_533_568,
        },
    },
];

/// The network's price records, which make a series.
pub fn network_records() -> &'static [Dated<Prices>]
    ensures value { result.now ≡ network_records }
    ensures sound { sound prices_in_limits result.now ≡ true }
{
    &RECORDS
}

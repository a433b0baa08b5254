// Lives of a zone by example: what calls answer and write, worked out by hand from the rules.
#![tactic(auto)]

#[cfg(test)]
mod tests {
    use at_once::settled::{MOST_LINES, bill_and_share_out};
    use book::entries::{RegisterEntry, RollEntry};
    use book::event::{Change, Event};
    use book::launched::LaunchedZone;
    use book::lines::Line;
    use book::outcome::Refused;
    use book::prepared::PreparedZone;
    use refusal::Refusal;
    use sheet_parts::given::{Prices, Terms};
    use sheets::flat::FlatSheet;
    use std::test::Fail;
    use tariff::questions::YEAR_INDICES;

    // A contribution of 15 hundredths, shared by weights that fall over the first five years.
    fn falling_sheet() -> Result<FlatSheet, Refusal> {
        let mut weights = [0; YEAR_INDICES];
        weights[0] = 100;
        weights[1] = 91;
        weights[2] = 82;
        weights[3] = 74;
        weights[4] = 67;
        let prices = Prices {
            covered: 6_910_000,
            connectable: 18_770_000,
            third: 16_200_000,
        };
        let terms = Terms {
            contribution: 15,
            weights,
        };
        let mut place = None;
        FlatSheet::fill(&mut place, prices, terms)?;
        let Some(sheet) = place else { unreachable!() };
        Ok(sheet)
    }

    // Operator 1 takes 15% and operator 2 takes 5% before a launch on 31 March 2012.
    fn launched(
        roll: &mut [RollEntry],
        register: &[RegisterEntry],
    ) -> Result<LaunchedZone, Refusal> {
        PreparedZone::new()
            .commitment(roll, register, 20120301, 1, 3)
            .map_err(|back| back.refusal)?
            .commitment(roll, register, 20120301, 2, 1)
            .map_err(|back| back.refusal)?
            .launch(roll, register, 20120331)
            .map_err(|back| back.refusal)
    }

    const fn event(change: Change, date: u32, operator: u32, rate: u32) -> Event {
        Event {
            change,
            date,
            operator,
            rate,
        }
    }

    // Operator 2 takes 10% more in 2013, operator 3 takes 5% in 2015, whose share-out is first lent one place too few. Quotas: 15/20 and 5/20 of 207.30 euros, then
    // 1500/2820 and 1320/2820 of 103.65.
    #[test]
    fn quotas_of_falling_weights(rt: HostRuntime) -> Result<(), Fail> {
        let sheet = falling_sheet()?;
        let mut roll = [RollEntry::BLANK; 4];
        let mut register = [RegisterEntry::BLANK; 2];
        let mut bill = [Line::BLANK; 2];
        let mut credits = [Line::BLANK; MOST_LINES];
        let zone = launched(&mut roll, &register)?;
        let opened = zone
            .opening(&sheet, &roll, &mut register, &mut bill, 20120401, 7, 100)
            .map_err(|back| back.refusal)?;
        assert_eq!(rt; bill[0].unit, 20_730_000);
        assert_eq!(rt; bill[1].total, 691_000_000);
        let zone = opened.zone;
        let raise = event(Change::Raise, 20130501, 2, 3);
        let raised = bill_and_share_out(
            zone,
            &sheet,
            &mut roll,
            &register,
            &mut bill,
            &mut credits,
            2,
            raise,
        );
        let zone = raised.map_err(|back| back.refusal)?.zone;
        assert_eq!(rt; roll[0].balance, 155_475_000);
        assert_eq!(rt; roll[1].balance, 51_825_000);
        let commitment = event(Change::Commitment, 20150601, 3, 1);
        let committed = bill_and_share_out(
            zone,
            &sheet,
            &mut roll,
            &register,
            &mut bill,
            &mut credits,
            1,
            commitment,
        );
        let settled = committed.map_err(|back| back.refusal)?;
        assert_eq!(rt; settled.turned_down, Some(Refusal::StripTooShort));
        let zone = settled.zone;
        assert_eq!(rt; roll[0].balance, 210_607_979);
        assert_eq!(rt; roll[1].balance, 100_342_021);
        assert_eq!(rt; roll[2].balance, 0);
        assert_eq!(rt; zone.figures().totals.contributed, 310_950_000);
        Ok(())
    }

    // The number of a refusal, and the zone that it hands back.
    fn refused<Z: Drop>(answer: Result<Z, Refused<LaunchedZone>>) -> Option<(u8, LaunchedZone)> {
        answer.err().map(|back| (back.refusal.number(), back.kept))
    }

    // A strip too short (16), a day before the last one (3), no dwelling (12): each hands the zone back, which then opens
    // the same PM.
    #[test]
    fn refused_calls_change_nothing(rt: HostRuntime) -> Result<(), Fail> {
        let sheet = falling_sheet()?;
        let mut roll = [RollEntry::BLANK; 4];
        let mut register = [RegisterEntry::BLANK; 2];
        let mut strip = [Line::BLANK; 2];
        let mut zone = launched(&mut roll, &register)?;
        for (places, date, dwellings, expected) in [
            (1, 20120401, 100, 16),
            (2, 20120330, 100, 3),
            (2, 20120401, 0, 12),
        ] {
            let lent = &mut strip[..places];
            let answer = zone.opening(&sheet, &roll, &mut register, lent, date, 7, dwellings);
            let Some((number, kept)) = refused(answer) else {
                panic!(&rt; "accepted")
            };
            assert_eq!(rt; number, expected);
            assert_eq!(rt; register[0].object, 0);
            assert_eq!(rt; strip[0].total, 0);
            zone = kept;
        }
        let opened = zone
            .opening(&sheet, &roll, &mut register, &mut strip, 20120401, 7, 100)
            .map_err(|back| back.refusal)?;
        assert_eq!(rt; opened.lines, 2);
        assert_eq!(rt; register[0].object, 7);
        Ok(())
    }
}

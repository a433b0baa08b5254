// Series by example: which rows make one, and what is in force around each date.
#![tactic(auto)]

#[cfg(test)]
mod tests {
    use refusal::Refusal;
    use series::{Dated, IndexNumber, Series};
    use std::test::Fail;

    const fn row(date: u32, number: u32) -> Dated<IndexNumber> {
        Dated {
            date,
            value: IndexNumber(number),
        }
    }

    // Whether two rows make a series.
    fn taken(first: Dated<IndexNumber>, second: Dated<IndexNumber>) -> bool {
        let rows = [first, second];
        let mut series = Series::empty();
        series.fill(&rows).is_ok()
    }

    #[test]
    fn rows_that_make_a_series(rt: HostRuntime) {
        assert!(rt; taken(row(20080101, 1), row(20991231, 50_000)), "both ends");
        assert!(rt; taken(row(20240228, 7), row(20240229, 7)), "a leap day");
        assert!(rt; !taken(row(20230228, 7), row(20230229, 7)), "no leap day");
        assert!(rt; !taken(row(20071231, 7), row(20080101, 7)), "too early");
        assert!(rt; !taken(row(20991231, 7), row(21000101, 7)), "too late");
        assert!(rt; !taken(row(20240101, 7), row(20240101, 8)), "the same day");
        assert!(rt; !taken(row(20240102, 7), row(20240101, 8)), "falling");
        assert!(rt; !taken(row(20240101, 0), row(20240102, 8)), "index 0");
        assert!(rt;
            !taken(row(20240101, 7), row(20240102, 50_001)),
            "index 50,001"
        );
    }

    #[test]
    fn in_force_around_each_date(rt: HostRuntime) -> Result<(), Fail> {
        let rows = [row(20211001, 10), row(20220901, 20), row(20230701, 30)];
        let mut series = Series::empty();
        series.fill(&rows)?;
        let cases = [
            (0, None, None),
            (20210930, None, None),
            (20211001, Some(10), None),
            (20211002, Some(10), Some(10)),
            (20220831, Some(10), Some(10)),
            (20220901, Some(20), Some(10)),
            (20220902, Some(20), Some(20)),
            (20230701, Some(30), Some(20)),
            (20230702, Some(30), Some(30)),
            (4_294_967_295, Some(30), Some(30)),
        ];
        for (day, on, before) in cases {
            assert_eq!(rt; series.in_force_on(day), on.map(IndexNumber));
            assert_eq!(rt; series.in_force_before(day), before.map(IndexNumber));
        }
        Ok(())
    }

    #[test]
    fn a_refused_fill_changes_nothing(rt: HostRuntime) -> Result<(), Fail> {
        let rows = [row(20211001, 10)];
        let falling = [row(20211001, 10), row(20210101, 20)];
        let mut series = Series::empty();
        series.fill(&rows)?;
        assert_eq!(rt; series.fill(&falling), Err(Refusal::BadSheet));
        assert_eq!(rt; series.in_force_on(20211001), Some(IndexNumber(10)));
        Ok(())
    }
}

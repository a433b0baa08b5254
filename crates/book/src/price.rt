// What an object costs, and what it contributes.
ghost use Rattle.std.specs.Prelude.{◌≡◌, ◌≤◌};
ghost use Rattle.tariff.specs.Bounds.{most_price};
ghost use Rattle.unit_prices.specs.Limits.{most_unit_price, most_unit_contribution};
ghost use Rattle.unit_prices.specs.Prices.{price_at, unit_price, unit_contribution};
ghost use Rattle.book.specs.Limits.{most_contribution};
ghost use Rattle.book.specs.Increases.{addition_in};
ghost use Rattle.book.specs.Sharing.{object_contribution};

use crate::increase::Increase;
use crate::sound_entries::Object;
use tariff::questions::Tariff;
use unit_prices::price::{unit_contribution, unit_price};

impl<'a> Object<'a> {
    // The price per tranche and dwelling.
    pub(crate) fn price<T: Tariff>(self, sheet: &T) -> u64
        ensures value { let o = self.entry.item.now in
            result ≡ price_at (T.meaning sheet.now) o.kind o.installed }
        ensures most { result ≤ most_price }
    {
        u64::from(
            sheet
                .price(self.item.kind, self.item.installed)
                .unwrap_or(0),
        )
    }

    // What a dwelling costs for the tranches of an increase, on its day; 0 where the question is refused, as by the
    // definition, which no accepted call meets.
    pub(crate) fn unit_price<T: Tariff>(self, sheet: &T, increase: Increase) -> u64
        ensures value { let o = self.entry.item.now in
            let m = T.meaning sheet.now in
            result ≡ unit_price m o.kind o.installed increase.date increase.tranches }
        ensures most { result ≤ most_unit_price }
    {
        unit_price(
            sheet,
            self.item.kind,
            self.item.installed,
            increase.date,
            increase.tranches,
        )
        .unwrap_or(0)
    }

    // What of it goes to the earlier operators; 0 where the question is refused, likewise. Inlined, so that an increase's day
    // and tranches are checked once for all objects.
    #[inline(always)]
    pub(crate) fn unit_contribution<T: Tariff>(self, sheet: &T, increase: Increase) -> u64
        ensures value { let o = self.entry.item.now in
            let m = T.meaning sheet.now in
            result ≡ unit_contribution m o.kind o.installed increase.date increase.tranches }
        ensures most { result ≤ most_unit_contribution }
    {
        unit_contribution(
            sheet,
            self.item.kind,
            self.item.installed,
            increase.date,
            increase.tranches,
        )
        .unwrap_or(0)
    }

    // What the object contributes: its unit contribution times its dwellings.
    pub(crate) fn contribution<T: Tariff>(self, sheet: &T, increase: Increase) -> u64
        ensures value { let m = T.meaning sheet.now in
            result ≡ object_contribution m (addition_in increase) self.entry.item.now }
        ensures most { result ≤ most_contribution }
    {
        self.unit_contribution(sheet, increase) * u64::from(self.item.dwellings)
    }
}

// All checks of each call, place by place, on what is borrowed: nothing is moved or written before
// they pass.
ghost use Rattle.std.specs.Prelude.{◌≡◌};
ghost use Rattle.refusal.specs.Checks.{in_turn};
ghost use Rattle.book.specs.Answers.{subscription_checks, launching_checks, installation_checks, billing_checks, settling_checks};
ghost use Rattle.book.specs.Passing.{tables_in};

use crate::bill::lines_billed;
use crate::entries::RegisterEntry;
use crate::event::Event;
use crate::increase::Increase;
use crate::launched::LaunchedZone;
use crate::levy::OpenLevy;
use crate::prepared::PreparedZone;
use crate::share::check_room;
use crate::sheet_checks::{check_prices, check_sheet};
use crate::sound_entries::{Objects, Operators};
use crate::tables::{Tables, check_tables};
use crate::zone_checks::{
    check_date, check_launched_date, check_register, check_roll, check_strip,
};
use refusal::Refusal;
use std::slice;
use tariff::questions::Tariff;

impl PreparedZone {
    // A launch.
    pub(crate) fn check_launch(&self, lent: Tables<'_>, date: u32) -> Result<(), Refusal>
        ensures answer { let t = tables_in lent.entry in
            result ≡ in_turn (launching_checks self.now.core.figures t date) tt }
    {
        check_tables(&self.core.figures, lent)?;
        check_date(&self.core.figures, date)
    }

    // A commitment or raise before the launch.
    pub(crate) fn check_subscription(&self, lent: Tables<'_>, event: &Event) -> Result<(), Refusal>
        ensures answer { let t = tables_in lent.entry in
            result ≡ in_turn (subscription_checks self.now.core.figures t event.now) tt }
    {
        check_tables(&self.core.figures, lent)?;
        check_date(&self.core.figures, event.date)?;
        check_roll(&self.core.figures, lent, event)
    }
}

impl LaunchedZone {
    // An opening or cabling. Each operator gets a line.
    pub(crate) fn check_installation<T: Tariff>(
        &self,
        sheet: &T,
        lent: Tables<'_>,
        places: usize,
        object: &RegisterEntry,
    ) -> Result<(), Refusal>
        ensures answer { let m = T.meaning sheet.now in
            let f = self.now.core.figures in
            let t = tables_in lent.entry in
            result ≡ in_turn (installation_checks m f self.now.launch_date t places object.now) tt }
    {
        check_tables(&self.core.figures, lent)?;
        check_launched_date(&self.core.figures, self.launch_date, object.installed)?;
        check_register(&self.core.figures, lent, object)?;
        check_prices(sheet, slice::from_ref(object))?;
        check_strip(places, self.core.figures.operators)
    }

    // A commitment or raise that bills.
    pub(crate) fn check_billing<T: Tariff>(
        &self,
        sheet: &T,
        lent: Tables<'_>,
        places: usize,
        event: &Event,
    ) -> Result<(), Refusal>
        ensures answer { let m = T.meaning sheet.now in
            let f = self.now.core.figures in
            let t = tables_in lent.entry in
            result ≡ in_turn (billing_checks m f self.now.launch_date t places event.now) tt }
    {
        check_tables(&self.core.figures, lent)?;
        check_launched_date(&self.core.figures, self.launch_date, event.date)?;
        check_roll(&self.core.figures, lent, event)?;
        let objects = &lent.register[..self.core.figures.objects];
        check_sheet(sheet, event.date, objects)?;
        check_strip(places, lines_billed(objects, event.date))
    }
}

impl OpenLevy {
    // A share-out. It has no date, and its coefficients were asked when it was billed.
    pub(crate) fn check_share_out<T: Tariff>(
        &self,
        sheet: &T,
        lent: Tables<'_>,
        places: usize,
    ) -> Result<(), Refusal>
        ensures answer { let m = T.meaning sheet.now in
            let f = self.now.zone.core.figures in
            let day = self.now.zone.launch_date in
            let t = tables_in lent.entry in
            result ≡ in_turn (settling_checks m f day t places self.now.event) tt }
    {
        check_tables(&self.zone.core.figures, lent)?;
        check_roll(&self.zone.core.figures, lent, &self.event)?;
        let operators = Operators {
            items: &lent.roll[..self.zone.core.figures.operators],
        };
        let objects = Objects {
            items: &lent.register[..self.zone.core.figures.objects],
        };
        check_prices(sheet, objects.items)?;
        let increase = Increase::of_event(&self.event, self.index(), operators.items);
        check_room(sheet, increase, objects, operators, places)
    }
}

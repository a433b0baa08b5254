// A dated series: how it is filled, which is the only place where rows are judged, and what is in force on a day and before.
ghost use Rattle.std.specs.Prelude.{◌≡◌, ◌<◌, ◌≤◌, true, false, ◌&&◌, [], length, MatchResult, OnErr, OnOk};
ghost use Rattle.calendar.specs.Days.{is_date};
ghost use Rattle.series.specs.Rows.{most_rows, real, rising, within_limits, sound};

use crate::limits::Limited;
use crate::rows::Dated;
use calendar::is_date;
use refusal::Refusal;

const MOST_ROWS: usize = 512;

/// Rows that their maker lends, judged once: at most 512, on real days that rise strictly, each value within the limits of
/// its kind.
#[derive(PartialEq, Eq, Debug, Drop)]
pub struct Series<'a, V: Limited> {
    rows: &'a [Dated<V>],
    ghost few: { length rows.now ≤ most_rows },
    ghost real: { real rows.now ≡ true },
    ghost rising: { rising rows.now ≡ true },
    ghost fit: { within_limits V.Limited.fits rows.now ≡ true },
}

impl<'a, V: Limited> Series<'a, V> {
    ghost use Rattle.series.specs.Lent.{rows_of};

    /// A series of no rows: the place to fill.
    pub fn empty() -> Series<'a, V>
        ensures value { rows_of result ≡ [] }
    {
        Series { rows: &[] }
    }
}

impl<'a, V: Limited> Series<'a, V> {
    ghost use Rattle.refusal.specs.declared.Refusal.TheVariants.{BadSheet};
    ghost use Rattle.series.specs.Lent.{rows_of};

    /// Takes the rows if they make a series: at most 512, each on a real day later than the one before it, each value within
    /// the limits of its kind. Otherwise refuses them as `BadSheet` and stays as it was. A place is filled, and no series
    /// returned, so that what the place holds outlives a refusal.
    pub fn fill(&mut self, rows: &'a [Dated<V>]) -> Result<(), Refusal>
        ensures answer { MatchResult result
            (λ _. sound V.Limited.fits rows.now ≡ true)
            (λ e. (e ≡ BadSheet) × (sound V.Limited.fits rows.now ≡ false)) }
        ensures value { OnOk result (rows_of self.new ≡ rows.now) }
        ensures kept { OnErr result (self.new ≡ self.old) }
    {
        if !are_sound(rows) {
            return Err(Refusal::BadSheet);
        }
        self.rows = rows;
        Ok(())
    }
}

// Whether rows make a series. Each row is looked at once, from the front, and none after the first that does not stand.
fn are_sound<V: Limited>(rows: &[Dated<V>]) -> bool
    ensures value { result ≡ sound V.Limited.fits rows.now }
{
    rows.len() <= MOST_ROWS && all_stand(rows)
}

// Whether every date is a calendar day, later than the one before it, and every value keeps the limits of its kind.
fn all_stand<V: Limited>(rows: &[Dated<V>]) -> bool
    ensures value { let fits = V.Limited.fits in
        result ≡ (real rows.now && (rising rows.now && within_limits fits rows.now)) }
{
    let [first, ..] = rows else {
        return true;
    };
    stands(first) && rows.is_sorted_by(|row, next| row.date < next.date && stands(next))
}

// Whether a date is a calendar day, and its value keeps the limits of its kind.
fn stands<V: Limited>(row: &Dated<V>) -> bool
    ensures value { result ≡ (is_date row.now.date && V.Limited.fits row.now.value) }
{
    is_date(row.date) && row.value.in_limits()
}

impl<'a, V: Limited + Copy> Series<'a, V> {
    ghost use Rattle.series.specs.Found.{Keeps, KeepsLimits};
    ghost use Rattle.series.specs.Laws.{SteadyOn, SteadyBefore, OwnDayOn, OwnDayBefore};
    ghost use Rattle.series.specs.Lent.{rows_of};
    ghost use Rattle.series.specs.Lookups.{in_force_on, in_force_before};

    /// The last value dated up to a day, written yyyymmdd, if there is one. The day need not be real.
    pub fn in_force_on(&self, day: u32) -> Option<V>
        ensures value { result ≡ in_force_on (rows_of self.now) day }
        ensures steady { SteadyOn (rows_of self.now) day result }
        ensures own { OwnDayOn (rows_of self.now) day result }
        ensures limits { KeepsLimits (rows_of self.now) result }
        ensures fits { Keeps V.Limited.fits result }
    {
        // Dated up to a day is dated below the next number.
        self.last_below(u64::from(day) + 1)
    }

    /// The last value dated earlier than a day, written yyyymmdd, if there is one. The day need not be real.
    pub fn in_force_before(&self, day: u32) -> Option<V>
        ensures value { result ≡ in_force_before (rows_of self.now) day }
        ensures steady { SteadyBefore (rows_of self.now) day result }
        ensures own { OwnDayBefore (rows_of self.now) day result }
        ensures limits { KeepsLimits (rows_of self.now) result }
        ensures fits { Keeps V.Limited.fits result }
    {
        self.last_below(u64::from(day))
    }

    // The last value dated below a number. It has 64 bits, so that every day has a next number.
    fn last_below(&self, number: u64) -> Option<V>
        ensures value { result ≡ in_force_before (rows_of self.now) number }
    {
        let last = self.rows_below(number).checked_sub(1)?;
        Some(self.rows[last].value)
    }
}

impl<'a, V: Limited> Series<'a, V> {
    ghost use Rattle.std.specs.List.Sorted.{IsPartitionPoint};
    ghost use Rattle.series.specs.Lent.{rows_of};

    // How many rows are dated below a number. The library halves what is left to look at.
    fn rows_below(&self, number: u64) -> usize
        ensures within { result ≤ length (rows_of self.now) }
        ensures parted { IsPartitionPoint (λ row. row.date < number) (λ row. number ≤ row.date)
            (rows_of self.now) result }
    {
        self.rows
            .partition_point(|row| u64::from(row.date) < number)
    }
}

// Calendar days as decimal numbers yyyymmdd: which are real, the months between two, and the year of a zone's life.
#![tactic(auto)]

ghost use Rattle.std.specs.Prelude.{◌≡◌, ◌≤◌, T, nat_le};
ghost use Rattle.calendar.specs.Days.{is_date, month_length, months_between, index_of};

const FIRST_YEAR: u32 = 2008;

const LAST_YEAR: u32 = 2099;

// The days of the shortest month.
const SHORTEST_MONTH: u32 = 28;

/// Whether a number, written yyyymmdd, is a real calendar day from 20080101 to 20991231.
pub const fn is_date(number: u32) -> bool
    ensures value { result ≡ is_date number }
{
    let year = number / 10000;
    let month = number / 100 % 100;
    let day = number % 100;
    FIRST_YEAR <= year
        && year <= LAST_YEAR
        && 1 <= month
        && month <= 12
        && 1 <= day
        && is_in_month(year, month, day)
}

// Whether a month has so many days. The length of a month is worked out only for a day that some months have not.
const fn is_in_month(year: u32, month: u32, day: u32) -> bool
    ensures value { result ≡ nat_le day (month_length year month) }
{
    day <= SHORTEST_MONTH || day <= month_length(year, month)
}

// The days of a month. Every fourth year from 2008 to 2099 is a leap year.
const fn month_length(year: u32, month: u32) -> u32
    ensures value { result ≡ month_length year month }
    ensures least { 28 ≤ result }
{
    match month {
        2 if year % 4 == 0 => 29,
        2 => 28,
        4 | 6 | 9 | 11 => 30,
        _ => 31,
    }
}

/// The months from one date to another: the difference of years and months, days playing no part, 0 if negative.
/// Both dates are written yyyymmdd; neither need be real.
pub const fn months_between(from: u32, to: u32) -> u32
    ensures value { result ≡ months_between from to }
    ensures earlier { T (is_date from) → T (is_date to) → to ≤ from → result ≡ 0 }
{
    let first = from / 10000 * 12 + from / 100 % 100;
    let last = to / 10000 * 12 + to / 100 % 100;
    last.saturating_sub(first)
}

/// The year of a zone's life that a date lies in: 0 up to and including the launch date, then calendar years, the rest of
/// the launch year being 1. Both dates are written yyyymmdd; neither need be real.
pub const fn year_index(launch: u32, date: u32) -> u32
    ensures value { result ≡ index_of launch date }
{
    if date <= launch {
        0
    } else {
        date / 10000 - launch / 10000 + 1
    }
}

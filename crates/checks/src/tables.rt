// The check of a table: whether it has a place for each counted entry, and those are lawful.
ghost use Rattle.std.specs.Prelude.{◌≡◌, ◌<◌, ℕ, Bool, true, false, IfSome, is_none, length, nat_eq, nat_lt, take};
ghost use Rattle.std.specs.List.{list_any};
ghost use Rattle.checks.specs.Tables.{is_bad_table, has_number, repeats};

// By how much the numbers of a long table are divided: a prime, so that numbers in most steps leave different remainders. A
// larger one serves where there are more of them.
const DIVISOR: usize = 2_039;

const LARGE_DIVISOR: usize = 16_381;

// The most entries for which the smaller one serves.
const FEW_ENTRIES: usize = 256;

/// An entry of a table: it has a number, and limits of its own.
pub trait TableEntry {
    ghost numbered: { Self → ℕ };

    ghost faulty: { Self → Bool };

    /// The number by which its table knows it.
    fn number(&self) -> u32
        ensures value { result ≡ numbered self.now };

    /// Whether it is outside its limits.
    fn is_faulty(&self) -> bool
        ensures value { result ≡ faulty self.now };
}

/// Whether a table is shorter than its count, or a counted entry is outside its limits or repeats a
/// number. For a table of a few entries: of numbers that do not rise, only those are compared whose remainders by 64 agree.
pub fn is_bad_table<E: TableEntry>(entries: &[E], counted: usize) -> bool
    ensures value { result ≡ is_bad_table E.numbered E.faulty counted entries.now }
{
    let Some(entries) = counted_entries(entries, counted) else {
        return true;
    };
    any_faulty(entries) || (!rise(entries) && any_equal(entries))
}

/// The same of a table of many entries: of numbers that do not rise, only those are compared whose remainders by a fixed
/// number agree. It notes the remainders in a row as long for any table, which a table of a few entries does without.
pub fn is_bad_long_table<E: TableEntry>(entries: &[E], counted: usize) -> bool
    ensures value { result ≡ is_bad_table E.numbered E.faulty counted entries.now }
{
    let Some(entries) = counted_entries(entries, counted) else {
        return true;
    };
    any_faulty(entries) || (!rise(entries) && any_equal_of_many(entries))
}

/// Whether some entry has a number.
pub fn has_number<E: TableEntry>(entries: &[E], number: u32) -> bool
    ensures value { result ≡ has_number E.numbered number entries.now }
{
    entries.iter().any(|entry| entry.number() == number)
}

// The counted entries, if the table has a place for each.
fn counted_entries<E>(entries: &[E], counted: usize) -> Option<&[E]>
    ensures none { is_none result ≡ nat_lt (length entries.now) counted }
    ensures value { IfSome result (λ found. found.now ≡ take counted entries.now) }
{
    entries.get(..counted)
}

// Whether some entry is outside its limits.
fn any_faulty<E: TableEntry>(entries: &[E]) -> bool
    ensures value { result ≡ list_any E.faulty entries.now }
{
    entries.iter().any(|entry| entry.is_faulty())
}

// Whether each number is above the one before it, so that none is there twice.
fn rise<E: TableEntry>(entries: &[E]) -> bool
    ensures once { result ≡ true → repeats E.numbered entries.now ≡ false }
{
    entries.is_sorted_by(|entry, next| is_below(entry, next))
}

// Whether a number is below another: equal ones do not rise.
fn is_below<E: TableEntry>(entry: &E, next: &E) -> bool
    ensures value { result ≡ nat_lt (E.numbered entry.now) (E.numbered next.now) }
{
    entry.number() < next.number()
}

// Whether two of a few entries have one number. The remainders that were left are the bits of one number.
fn any_equal<E: TableEntry>(entries: &[E]) -> bool
    ensures value { result ≡ repeats E.numbered entries.now }
{
    let mut left = 0u64;
    for place in (0..entries.len()).rev() {
        let number = entries[place].number();
        let bit = 1u64 << (number % u64::BITS);
        if left & bit != 0 && has_number(&entries[place + 1..], number) {
            return true;
        }
        left |= bit;
    }
    false
}

// Whether two of many entries have one number.
fn any_equal_of_many<E: TableEntry>(entries: &[E]) -> bool
    ensures value { result ≡ repeats E.numbered entries.now }
{
    if entries.len() <= FEW_ENTRIES {
        any_equal_by_remainder::<E, DIVISOR>(entries)
    } else {
        any_equal_by_remainder::<E, LARGE_DIVISOR>(entries)
    }
}

// Whether two entries have one number: from the last one on, notes which remainders were left, and compares a number with
// all later ones only where its remainder is there already. Numbers that all leave one remainder are compared each with each.
fn any_equal_by_remainder<E: TableEntry, const REMAINDERS: usize>(entries: &[E]) -> bool
    requires { 0 < REMAINDERS }
    ensures value { result ≡ repeats E.numbered entries.now }
{
    let mut left = [false; REMAINDERS];
    for place in (0..entries.len()).rev() {
        let number = entries[place].number();
        let remainder = number as usize % REMAINDERS;
        if left[remainder] && has_number(&entries[place + 1..], number) {
            return true;
        }
        left[remainder] = true;
    }
    false
}

// The price tables of links, by the link's length and its fibres.
ghost use Rattle.std.specs.Prelude.{◌≡◌, ◌<◌};
ghost use Rattle.links.specs.Tables.{rows, row_checked, column_checked, price_at};

use refusal::Refusal;

// Micro-euros in a euro.
const EURO: u64 = 1_000_000;

// How many lengths the tables have a row for.
const ROWS: usize = 9;

// The most fibres on a link, and a column for each number of them.
const MOST_FIBRES: usize = 6;

// The length in metres up to which each row goes.
const ROW_ENDS: [u32; ROWS] = [
    1_000, 2_000, 4_000, 6_000, 8_000, 10_000, 12_000, 14_000, 16_000,
];

// A link ordered ab initio, in euros: a row for each length, a column for each of 1 to 6 fibres.
pub(crate) const INITIAL: [[u32; MOST_FIBRES]; ROWS] = [
    [1671, 3090, 3921, 4420, 4753, 4986],
    [1780, 3291, 4176, 4708, 5062, 5310],
    [1997, 3693, 4687, 5283, 5681, 5959],
    [2287, 4229, 5368, 6051, 6506, 6825],
    [2577, 4766, 6048, 6818, 7331, 7690],
    [2867, 5302, 6729, 7585, 8156, 8555],
    [3157, 5838, 7409, 8352, 8981, 9421],
    [3447, 6374, 8090, 9119, 9806, 10286],
    [3737, 6911, 8771, 9887, 10631, 11151],
];

// A link's reference price, which the ex post coefficient multiplies.
pub(crate) const REFERENCE: [[u32; MOST_FIBRES]; ROWS] = [
    [1671, 3216, 4523, 5628, 6578, 7409],
    [1780, 3425, 4817, 5994, 7006, 7891],
    [1997, 3844, 5406, 6727, 7863, 8856],
    [2287, 4402, 6191, 7703, 9005, 10142],
    [2577, 4960, 6976, 8680, 10146, 11428],
    [2867, 5518, 7761, 9657, 11288, 12714],
    [3157, 6076, 8546, 10634, 12430, 14000],
    [3447, 6634, 9331, 11611, 13572, 15286],
    [3737, 7192, 10116, 12588, 14714, 16572],
];

// An extra fibre on a link, by the fibres first ordered: 1, 2, 3, 4, then five and more alike.
pub(crate) const EXTRA: [[u32; 5]; ROWS] = [
    [1545, 1307, 1105, 951, 831],
    [1645, 1392, 1177, 1012, 885],
    [1847, 1562, 1321, 1136, 993],
    [2115, 1789, 1513, 1301, 1137],
    [2383, 2016, 1704, 1466, 1282],
    [2651, 2243, 1896, 1631, 1426],
    [2919, 2470, 2088, 1796, 1570],
    [3187, 2697, 2280, 1961, 1714],
    [3455, 2924, 2472, 2126, 1859],
];

// The row of a length: the first whose end it does not pass.
pub(crate) fn row_of(metres: u32) -> Result<usize, Refusal>
    ensures answer { result ≡ row_checked metres }
{
    if metres == 0 {
        return Err(Refusal::MetresOutOfRange);
    }
    let row = ROW_ENDS.iter().position(|end| metres <= *end);
    row.ok_or(Refusal::MetresOutOfRange)
}

// The column of a number of fibres.
pub(crate) const fn column_of(fibres: u32) -> Result<usize, Refusal>
    ensures answer { result ≡ column_checked fibres }
{
    match fibres as usize {
        number @ 1..=MOST_FIBRES => Ok(number - 1),
        _ => Err(Refusal::FibresOutOfRange),
    }
}

// What a table has in a row and column, both counted from 0, in micro-euros.
pub(crate) fn price_at<const N: usize>(table: &[[u32; N]; ROWS], row: usize, column: usize) -> u64
    requires { (row < rows) × (column < N) }
    ensures value { result ≡ price_at table.now row column }
{
    u64::from(table[row][column]) * EURO
}

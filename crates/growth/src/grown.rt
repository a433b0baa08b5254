// The zone that is grown: its operators, its objects, its raise and its share-out.
use at_once::settled::{MOST_LINES, bill_and_share_out};
use book::entries::{RegisterEntry, RollEntry};
use book::event::{Change, Event};
use book::figures::Totals;
use book::launched::LaunchedZone;
use book::limits::{MOST_OBJECTS, MOST_OPERATORS};
use book::lines::Line;
use book::prepared::PreparedZone;
use refusal::Refusal;
use sheet_parts::given::{Prices, Terms};
use sheets::flat::FlatSheet;
use std::alloc::{AllocError, Global};
use std::fmt;
use tariff::questions::YEAR_INDICES;

// The places of a strip for a bill: a charge and a contribution for each object.
const BILL_PLACES: usize = 2 * MOST_OBJECTS;

// The place on the roll of the operator that raises: the last one.
const RAISING: u32 = 16;

const COMMITTED: u32 = 20090302;

const LAUNCHED: u32 = 20090415;

const OPENED: u32 = 20100601;

const RAISED: u32 = 20180918;

/// The order in which the objects are numbered.
#[derive(Clone, Copy)]
pub enum Order {
    Rising,
    Mixed,
}

/// The numbers of lines that the raise and its share-out wrote, and the totals after them.
#[derive(Clone, Copy)]
pub struct Grown {
    billed: usize,
    credited: usize,
    totals: Totals,
}

// The two tables and the two strips, of the most places that a zone can use.
#[derive(Drop)]
pub(crate) struct Lent {
    roll: Vec<RollEntry>,
    register: Vec<RegisterEntry>,
    bill: Vec<Line>,
    credits: Vec<Line>,
}

// Numbers in no order, spread over 32 bits. The factor is odd, so that no two places from 1 on have one number, and none
// has 0.
const fn mixed(place: u32) -> u32 {
    place.wrapping_mul(2_654_435_769)
}

impl Order {
    // The number of the object at a place, from 1 on.
    const fn number(self, place: u32) -> u32 {
        match self {
            Order::Rising => place,
            Order::Mixed => mixed(place),
        }
    }
}

// The dwellings of the object at a place, from 1 to 10,000.
const fn dwellings(place: u32) -> u32 {
    place.wrapping_mul(7_919) % 10_000 + 1
}

fn flat_sheet() -> Result<FlatSheet, Refusal> {
    let prices = Prices {
        covered: 6_910_000,
        connectable: 18_770_000,
        third: 16_200_000,
    };
    let terms = Terms {
        contribution: 15,
        weights: [100; YEAR_INDICES],
    };
    let mut place = None;
    FlatSheet::fill(&mut place, prices, terms)?;
    let Some(sheet) = place else { unreachable!() };
    Ok(sheet)
}

impl Lent {
    pub(crate) fn new(heap: Global) -> Result<Lent, AllocError> {
        Ok(Lent {
            roll: vec![in heap; RollEntry::BLANK; MOST_OPERATORS]?,
            register: vec![in heap; RegisterEntry::BLANK; MOST_OBJECTS]?,
            bill: vec![in heap; Line::BLANK; BILL_PLACES]?,
            credits: vec![in heap; Line::BLANK; MOST_LINES]?,
        })
    }

    // Makes the zone, the raise and the share-out. No call of it is refused, as its output shows.
    pub(crate) fn grow(&mut self, objects: usize, order: Order) -> Result<Grown, Refusal> {
        let sheet = flat_sheet()?;
        let zone = self.launch()?;
        let zone = self.open(zone, &sheet, objects, order)?;
        self.raise(zone, &sheet)
    }

    // Each operator commits itself to one tranche, and the zone is launched.
    fn launch(&mut self) -> Result<LaunchedZone, Refusal> {
        let roll = self.roll.as_mut_slice();
        let register = self.register.as_slice();
        let mut zone = PreparedZone::new();
        for place in 1..=RAISING {
            zone = zone
                .commitment(roll, register, COMMITTED, mixed(place), 1)
                .map_err(|back| back.refusal)?;
        }
        zone.launch(roll, register, LAUNCHED)
            .map_err(|back| back.refusal)
    }

    // So many PMs are opened on one day.
    fn open(
        &mut self,
        mut zone: LaunchedZone,
        sheet: &FlatSheet,
        objects: usize,
        order: Order,
    ) -> Result<LaunchedZone, Refusal> {
        let roll = self.roll.as_slice();
        let register = self.register.as_mut_slice();
        let bill = self.bill.as_mut_slice();
        for place in (1..).take(objects) {
            let (object, dwellings) = (order.number(place), dwellings(place));
            zone = zone
                .opening(sheet, roll, register, bill, OPENED, object, dwellings)
                .map_err(|back| back.refusal)?
                .zone;
        }
        Ok(zone)
    }

    // An operator takes one tranche more, and its levy is shared out. Kept apart, so that what it takes can be counted.
    #[inline(never)]
    fn raise(&mut self, zone: LaunchedZone, sheet: &FlatSheet) -> Result<Grown, Refusal> {
        let roll = self.roll.as_mut_slice();
        let register = self.register.as_slice();
        let bill = self.bill.as_mut_slice();
        let credits = self.credits.as_mut_slice();
        let event = Event {
            change: Change::Raise,
            date: RAISED,
            operator: mixed(RAISING),
            rate: 2,
        };
        let done = bill_and_share_out(
            zone, sheet, roll, register, bill, credits, MOST_LINES, event,
        )
        .map_err(|back| back.refusal)?;
        Ok(Grown {
            billed: done.billed,
            credited: done.credited,
            totals: done.zone.figures().totals,
        })
    }
}

impl fmt::Display for Grown {
    fn fmt<W: fmt::Write>(&self, f: &mut fmt::Formatter<W>) -> fmt::Result {
        let (billed, shared) = (self.billed, self.credited);
        let (contributed, credited) = (self.totals.contributed, self.totals.credited);
        let (unshared, lines) = (self.totals.unshared, self.totals.credit_lines);
        write!(
            f,
            "BILLED {billed} SHARED {shared} TOTAL {contributed} CREDITED {credited} UNSHARED {unshared} LINES {lines}"
        )
    }
}

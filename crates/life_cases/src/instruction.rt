// What a line of a script says.
use book::entries::RegisterEntry;
use book::event::Event;
use series::{Dated, IndexNumber};
use sheet_parts::given::Prices;
use tariff::questions::YEAR_INDICES;

/// Which sheet the calls below are made on.
#[derive(Clone, Copy)]
pub enum Choice {
    Flat,
    Indexed,
    Dated,
}

/// The places of the two tables and of the strip that calls are lent.
#[derive(Clone, Copy)]
pub struct Places {
    pub roll: usize,
    pub register: usize,
    pub strip: usize,
}

/// What the calls below are given: one thing of their sheet, so many places, or a balance that is written into the roll.
#[derive(Clone, Copy)]
pub enum Setting {
    Sheet(Choice),
    Prices(Prices),
    Contribution(u32),
    Weights([u32; YEAR_INDICES]),
    Wages(Dated<IndexNumber>),
    Consumer(Dated<IndexNumber>),
    Record(Dated<Prices>),
    Lend(Places),
    Share(usize),
    Balance { operator: u32, micros: u64 },
}

/// A call of a zone: a launch, a commitment or raise, or an opening or cabling by its entry.
#[derive(Clone, Copy)]
pub enum Call {
    Launch(u32),
    Subscription(Event),
    Installation(RegisterEntry),
}

/// What a line of a script asks for.
#[derive(Clone, Copy)]
pub enum Instruction {
    Life,
    Setting(Setting),
    Call(Call),
}

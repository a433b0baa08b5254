// A zone before its launch, and the calls that it takes: commitments and raises without charge, and the launch.
ghost use Rattle.std.specs.Prelude.{◌≡◌, [], IfErr};
ghost use Rattle.tariff.specs.Meaning.{Meaning, Lawful};
ghost use Rattle.book.specs.Answers.{subscription};
ghost use Rattle.book.specs.Calls.{commitment as call_commitment, raise as call_raise, launch as call_launch};
ghost use Rattle.book.specs.Passing.{tables};
ghost use Rattle.book.specs.Zone.{no_figures};
ghost use Rattle.book.specs.Zone as spec;

use crate::enter::enter;
use crate::entries::{RegisterEntry, RollEntry};
use crate::event::{Change, Event};
use crate::figures::{Core, Figures, Totals};
use crate::increase::Increase;
use crate::launched::LaunchedZone;
use crate::outcome::Refused;
use crate::tables::Tables;

/// A zone in preparation. It is moved from call to call.
#[derive(Drop)]
#[must_use]
pub struct PreparedZone {
    pub(crate) core: Core,
}

impl PreparedZone {
    ghost use Rattle.book.specs.Promises.{prepared, launched_on, answered, IsAnswered, LivesBegin, WholeLifeLaws};

    /// An empty zone: no date yet, no entry counted, nothing moved.
    pub const fn new() -> PreparedZone
        ensures value { (t : spec.Tables) → (prepared result t).figures ≡ no_figures }
        ensures life { (m : Meaning) → Lawful m → LivesBegin m result }
        ensures laws { WholeLifeLaws }
    {
        PreparedZone {
            core: Core {
                figures: Figures {
                    last: None,
                    operators: 0,
                    objects: 0,
                    totals: Totals {
                        contributed: 0,
                        credited: 0,
                        unshared: 0,
                        credit_lines: 0,
                    },
                },
            },
        }
    }

    /// The zone's plain numbers.
    pub const fn figures(&self) -> Figures
        ensures value { (t : spec.Tables) → result ≡ (prepared self.now t).figures }
    {
        self.core.figures
    }

    /// An operator commits itself to a rate, in tranches, on a day, without charge: they enter the roll at index 0.
    /// Refused by 1 (tables), 2, 3 (date), 5, 6, 7, 10 (roll), the first that holds; nothing is changed then.
    pub fn commitment(
        self,
        roll: &mut [RollEntry],
        register: &[RegisterEntry],
        date: u32,
        operator: u32,
        rate: u32,
    ) -> Result<PreparedZone, Refused<PreparedZone>>
        ensures call { let before = tables roll.old register.now in
            let after = tables roll.new register.now in
            (m : Meaning) → IsAnswered m (prepared self before) (call_commitment date operator rate)
            [] [] 0 (answered prepared after result) }
        ensures kept { IfErr result (λ back. (back.kept ≡ self) × (roll.new ≡ roll.old)) }
        ensures laws { WholeLifeLaws }
    {
        let event = Event {
            change: Change::Commitment,
            date,
            operator,
            rate,
        };
        self.subscribed(roll, register, event)
    }

    /// An operator raises its rate to so many tranches, on a day, without charge. Refused by 1 (tables), 2, 3 (date), 5, 6,
    /// 8, 9 (roll), the first that holds; nothing is changed then.
    pub fn raise(
        self,
        roll: &mut [RollEntry],
        register: &[RegisterEntry],
        date: u32,
        operator: u32,
        rate: u32,
    ) -> Result<PreparedZone, Refused<PreparedZone>>
        ensures call { let before = tables roll.old register.now in
            let after = tables roll.new register.now in
            (m : Meaning) → IsAnswered m (prepared self before) (call_raise date operator rate)
            [] [] 0 (answered prepared after result) }
        ensures kept { IfErr result (λ back. (back.kept ≡ self) × (roll.new ≡ roll.old)) }
        ensures laws { WholeLifeLaws }
    {
        let event = Event {
            change: Change::Raise,
            date,
            operator,
            rate,
        };
        self.subscribed(roll, register, event)
    }

    /// Launches the zone on a date, with its tables as they are. Refused by 1 (tables), 2, 3 (date), the first that holds.
    pub fn launch(
        self,
        roll: &[RollEntry],
        register: &[RegisterEntry],
        date: u32,
    ) -> Result<LaunchedZone, Refused<PreparedZone>>
        ensures call { let t = tables roll.now register.now in
            (m : Meaning) → IsAnswered m (prepared self t) (call_launch date)
            [] [] 0 (answered launched_on t result) }
        ensures kept { IfErr result (λ back. back.kept ≡ self) }
        ensures laws { WholeLifeLaws }
    {
        match self.check_launch(Tables { roll, register }, date) {
            Ok(()) => {
                let PreparedZone { core } = self;
                Ok(LaunchedZone {
                    core: Core {
                        figures: Figures {
                            last: Some(date),
                            ..core.figures
                        },
                    },
                    launch_date: date,
                })
            }
            Err(refusal) => Err(Refused {
                refusal,
                kept: self,
            }),
        }
    }

    // The tranches of a commitment or raise enter the roll at index 0, without charge.
    fn subscribed(
        self,
        roll: &mut [RollEntry],
        register: &[RegisterEntry],
        event: Event,
    ) -> Result<PreparedZone, Refused<PreparedZone>>
        ensures answer { let before = tables roll.old register.now in
            let after = tables roll.new register.now in
            answered prepared after result ≡ subscription self.core.figures before event }
        ensures kept { IfErr result (λ back. (back.kept ≡ self) × (roll.new ≡ roll.old)) }
    {
        match self.check_subscription(Tables { roll, register }, &event) {
            Ok(()) => {
                let PreparedZone { core } = self;
                let figures = core.figures;
                let increase = Increase::of_event(&event, 0, &roll[..figures.operators]);
                let operators = enter(increase, roll, figures.operators);
                Ok(PreparedZone {
                    core: Core {
                        figures: Figures {
                            last: Some(event.date),
                            operators,
                            ..figures
                        },
                    },
                })
            }
            Err(refusal) => Err(Refused {
                refusal,
                kept: self,
            }),
        }
    }
}

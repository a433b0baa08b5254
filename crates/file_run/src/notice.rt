// A refusal as the report of a run shows it.
ghost use Rattle.std.specs.Prelude.{◌≡◌, []};
ghost use Rattle.file_run.specs.Texts.{gap_before};

use crate::label::label_text;
use event_file::event::PlacedEvent;
use event_file::fault::{Fault, Place};
use refusal::Refusal;
use std::fmt;

/// An event of a file that the books refuse, and why.
#[derive(Clone, Copy)]
pub(crate) struct RefusedEvent<'a> {
    pub(crate) refusal: Refusal,
    pub(crate) placed: PlacedEvent<'a>,
}

/// The refusal with its block and entry, and the text of the entry's label. What is refused before its entry is read
/// has an empty text and no option of one, since a label of blanks alone shows the same.
#[derive(Clone, Copy, PartialEq, Eq, Debug)]
pub struct Notice<'a> {
    /// The refusal and its place.
    pub fault: Fault,
    /// The text of the label without its end blanks.
    pub label: &'a str,
}

impl<'a> From<Fault> for Notice<'a> {
    ghost from_gives = { λ fault r. (r.fault ≡ fault) × (r.label.now ≡ []) };

    fn from(fault: Fault) -> Notice<'a> {
        Notice { fault, label: "" }
    }
}

impl<'a> From<RefusedEvent<'a>> for Notice<'a> {
    ghost use Rattle.file_run.specs.Steps.{NoticeOf};

    ghost from_gives = { NoticeOf };

    fn from(back: RefusedEvent<'a>) -> Notice<'a> {
        let RefusedEvent { refusal, placed } = back;
        let PlacedEvent {
            block,
            entry,
            event,
        } = placed;
        Notice {
            fault: Fault {
                refusal,
                place: Place::Entry { block, entry },
            },
            label: label_text(event.label()),
        }
    }
}

// What stands between the entry's number and the label.
fn gap_before(label: &str) -> &'static str
    ensures value { result.now ≡ gap_before label.now }
{
    if label.is_empty() { "" } else { " " }
}

impl<'a> fmt::Display for Notice<'a> {
    ghost use Rattle.std.specs.Prelude.{Some};
    ghost use Rattle.file_run.specs.Steps.{shown_notice};
    ghost use Rattle.file_run.specs.Texts.{notice_text};

    ghost output = { λ notice. Some (notice_text (shown_notice notice)) };

    fn fmt<W: fmt::Write>(&self, f: &mut fmt::Formatter<W>) -> fmt::Result {
        let number = self.fault.refusal.number();
        let block = self.fault.place.block();
        let entry = self.fault.place.entry();
        let label = self.label;
        let gap = gap_before(label);
        write!(
            f,
            "REFUSED {number} BLOCK {block} ENTRY {entry}{gap}{label}"
        )
    }
}

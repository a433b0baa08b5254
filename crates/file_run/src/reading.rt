// A file read from its first entry to its last, through the books.
ghost use Rattle.std.specs.Prelude.{◌≡◌, IfOk, OnOk, drop, map, take};
ghost use Rattle.event_file.specs.Readers.{SameBytes, unread};
ghost use Rattle.event_file.specs.Telling.{file_tells, left_to_tell};
ghost use Rattle.book.specs.Runs.{lived};
ghost use Rattle.file_run.specs.Reports.{notices as notices_of, steps_told};
ghost use Rattle.file_run.specs.Steps.{noticed, shown_notice, Goes};
ghost use Rattle.file_run.specs.Zones.{state_of};

use crate::books::Books;
use crate::notice::Notice;
use event_file::event::{Entry, PlacedEvent};
use event_file::reader::Reader;
use std::alloc::{AllocError, Global};
use tariff::questions::Tariff;

// A longest file has 128 blocks of 17 entries, and each is refused at most once. There is room for all from the start, so
// that want of memory stops a run before anything is read.
const MOST_NOTICES: usize = 2176;

// Takes every entry of a file and gives what is refused, or why the file is refused as a whole.
pub(crate) fn read_file<'a, T: Tariff>(
    heap: Global,
    bytes: &'a [u8],
    books: &mut Books,
    sheet: &T,
) -> Result<Vec<Notice<'a>>, AllocError>
    ensures notices { let told = file_tells bytes.now in
        let said = notices_of (T.meaning sheet.now) (state_of books.old) told in
        IfOk result (λ x. map shown_notice x.items ≡ said) }
    ensures after { let steps = steps_told (file_tells bytes.now) in
        let after = lived (T.meaning sheet.now) (state_of books.old) steps in
        OnOk result (state_of books.new ≡ after) }
{
    let mut notices = Vec::with_capacity(heap, MOST_NOTICES)?;
    let mut reader = match Reader::open(bytes) {
        Ok(reader) => reader,
        Err(fault) => {
            notices.push_reserved(Notice::from(fault));
            return Ok(notices);
        }
    };
    loop {
        match advance(&mut reader, books, sheet) {
            Ok(Some(())) => {}
            Ok(None) => return Ok(notices),
            Err(notice) => notices.push_reserved(notice),
        }
    }
}

// Reads the next entry and takes its event, or gives none at the end of the file. What is refused leaves the books as
// they were; the reading goes on after it, unless a block has failed its check.
fn advance<'a, T: Tariff>(
    reader: &mut Reader<'a>,
    books: &mut Books,
    sheet: &T,
) -> Result<Option<()>, Notice<'a>>
    ensures notices { let told = left_to_tell (take 1 (unread reader.old).left) in
        noticed result ≡ notices_of (T.meaning sheet.now) (state_of books.old) told }
    ensures after { let told = left_to_tell (take 1 (unread reader.old).left) in
        state_of books.new ≡ lived (T.meaning sheet.now) (state_of books.old) (steps_told told) }
    ensures left { (unread reader.new).left ≡ drop 1 (unread reader.old).left }
    ensures same { SameBytes reader.old reader.new }
    ensures goes { Goes (unread reader.old).left result }
{
    let Some(
        Entry {
            block,
            entry,
            event,
        },
    ) = reader.next_entry()?
    else {
        return Ok(None);
    };
    let Some(event) = event else {
        return Ok(Some(()));
    };
    let placed = PlacedEvent {
        block,
        entry,
        event,
    };
    Ok(Some(books.take(sheet, placed)?))
}
